// Reading one data record.
ghost use Rattle.std.specs.Prelude.{◌≡◌};
ghost use Rattle.records.specs.Records.{Drafted, behind_record, draft_of, drafted, entry, record_at, told_record};
ghost use Rattle.records.specs.Told.{cursor, seen_field};
ghost use Rattle.records.specs.declared.numbers.Entry.{Entry as Item};

use super::super::fault::{Position, RecordFault};
use super::super::numbers::{Draft, Entry, Record};
use super::super::numeral::Numeral;
use super::gathered::Gathered;
use super::{Field, Fields};

// The largest magnitude of a number in a run file.
const LARGEST_NUMBER: u32 = 1_000_000_000;

// The number in a field.
fn number_in(field: Field) -> Result<Entry, RecordFault>
    ensures { result ≡ entry (seen_field field.entry) }
{
    let Some(numeral) = Numeral::read(field.text) else {
        return Err(RecordFault::Numeral(field.at));
    };
    Ok(Entry {
        at: field.at,
        value: numeral.within(LARGEST_NUMBER),
    })
}

// The numbers of a data record.
impl<'a> Gathered<'a> for Draft {
    ghost Item = { Item };

    ghost Sum = { Drafted };

    ghost read = { entry };

    ghost sum_of = { draft_of };

    ghost told = { drafted };

    fn none(at: Position) -> Draft {
        Draft::new(at)
    }

    fn take(&mut self, field: Field<'a>) -> Result<(), RecordFault> {
        self.add(number_in(field)?);
        Ok(())
    }
}

impl<'a> Fields<'a> {
    // The next record, which is one of data, or None once the file has ended. A refusal leaves the reader where it is.
    pub fn next_record(&mut self) -> Result<Option<Record>, RecordFault>
        ensures answer { told_record result ≡ record_at self.old.bytes.now (cursor self.old) }
        ensures after { cursor self.new ≡ behind_record self.old.bytes.now (cursor self.old) }
        ensures bytes { self.new.bytes ≡ self.old.bytes }
    {
        if self.ended {
            return Ok(None);
        }
        let mut ahead = *self;
        let draft: Draft = ahead.gather()?;
        if let Some(at) = draft.beyond {
            return Err(RecordFault::Limit(at));
        }
        *self = ahead;
        Ok(Some(draft.done()))
    }
}
