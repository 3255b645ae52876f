// One record fed.
ghost use Rattle.std.specs.Prelude.{◌≡◌, ◌<◌, length, IfSome, is_ok, if◌then◌else◌, Some, Ok};
ghost use Rattle.records.specs.Told.{cursor};
ghost use Rattle.records.specs.Records.{behind_record, numbers_of, record_at, values_of};
ghost use Rattle.runs.specs.Offers.{told};
ghost use Rattle.runfiles.specs.Faults.{byte_at, first_over, from_run, over_place, place_of};
ghost use Rattle.runfiles.specs.Offers.{offer_answer, offer_of, record_answer, record_cells, record_meaning, record_refusal};

use super::fault::{Cause, RunFault, state_at};
use records::{Fields, Record};
use runs::{Offer, Recorder, Refusal, Shape};

// The fields of a record with a value for each variable that a run can have.
const MOST_FIELDS: usize = 1 + Shape::WIDEST;

// The state that a record offers. One with more values than any run takes is refused for their number, so it offers none.
fn offer_of(row: &Record) -> Offer<'_>
    ensures { told result ≡ offer_of (numbers_of row.now) }
{
    let values = if row.count() <= MOST_FIELDS {
        row.values()
    } else {
        &[]
    };
    Offer {
        stay: row.stay(),
        values,
    }
}

// The first byte of a field, the stay's being 0; the record's for a field that is not kept.
fn byte_at(row: &Record, field: usize) -> usize
    ensures { result ≡ byte_at (numbers_of row.now) field }
{
    row.place(field).map_or(row.at().byte, |at| at.byte)
}

// The number of the leftmost value beyond the largest magnitude.
fn first_over(largest: u64, values: &[i64]) -> Option<usize>
    ensures value { result ≡ first_over largest values.now }
    ensures bound { IfSome result (λ v. v < length values.now) }
{
    values.iter().position(|v| v.unsigned_abs() > largest)
}

// The first byte of the leftmost value beyond the recorder's largest magnitude; the record's where none is.
fn over_place<R: Recorder>(row: &Record) -> usize
    ensures { result ≡ over_place (numbers_of row.now) (first_over R.largest (values_of (numbers_of row.now))) }
{
    match first_over(R::largest_magnitude().unsigned_abs(), row.values()) {
        Some(v) => byte_at(row, v + 1),
        None => row.at().byte,
    }
}

// Where in the file a run's refusal of this record stands.
fn place_of<R: Recorder>(refusal: Refusal, row: &Record) -> usize
    ensures { result ≡ place_of R.largest (numbers_of row.now) refusal }
{
    match refusal {
        Refusal::Width | Refusal::Stay | Refusal::Full => row.at().byte,
        Refusal::Magnitude => over_place::<R>(row),
        // Place 0, as the format lays down: no byte of the file is at fault.
        Refusal::Ended | Refusal::NoStates => 0,
    }
}

// A run's refusal of this record, as a fault of the file.
fn fault_of<R: Recorder>(refusal: Refusal, row: &Record) -> RunFault
    ensures { result ≡ from_run R.largest (numbers_of row.now) refusal }
{
    RunFault {
        state: state_at(row.at()),
        cause: Cause::Run(refusal, place_of::<R>(refusal, row)),
    }
}

// Offers a record to a run.
fn offer<R: Recorder>(recorder: &mut R, row: &Record) -> Result<(), RunFault>
    ensures answer { result ≡ offer_answer R.largest (numbers_of row.now) (record_refusal R.Recorder recorder.old (numbers_of row.now)) }
    ensures after { R.meaning recorder.new ≡ record_meaning R.Recorder recorder.old (Ok (Some (numbers_of row.now))) }
    ensures cells { R.cells recorder.new ≡ record_cells R.Recorder recorder.old (Ok (Some (numbers_of row.now))) }
    ensures place { R.place recorder.new ≡ R.place recorder.old }
{
    recorder
        .feed(offer_of(row))
        .map_err(|refusal| fault_of::<R>(refusal, row))
}

// Feeds the next record of a file to a run: true once it is fed, false once the file has ended. A refusal changes neither the reader nor the run.
// A bool and no Option: nothing is handed out, and a caller asks only whether to go on.
pub fn feed_record<R: Recorder>(fields: &mut Fields<'_>, recorder: &mut R) -> Result<bool, RunFault>
    ensures answer { result ≡ record_answer R.Recorder recorder.old (record_at fields.old.bytes.now (cursor fields.old)) }
    ensures after { R.meaning recorder.new ≡ record_meaning R.Recorder recorder.old (record_at fields.old.bytes.now (cursor fields.old)) }
    ensures cells { R.cells recorder.new ≡ record_cells R.Recorder recorder.old (record_at fields.old.bytes.now (cursor fields.old)) }
    ensures place { R.place recorder.new ≡ R.place recorder.old }
    ensures reader { cursor fields.new ≡ (if is_ok result then behind_record fields.old.bytes.now (cursor fields.old) else cursor fields.old) }
    ensures bytes { fields.new.bytes ≡ fields.old.bytes }
{
    let mut ahead = *fields;
    let Some(row) = ahead.next_record()? else {
        return Ok(false);
    };
    offer(recorder, &row)?;
    *fields = ahead;
    Ok(true)
}
