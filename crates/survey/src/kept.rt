// A run file fed into rows.
ghost use Rattle.std.specs.Prelude.{◌≡◌, length};
ghost use Rattle.records.specs.Told.{cursor};
ghost use Rattle.rows.specs.RowRuns.{cells_of, meaning_of};
ghost use Rattle.survey.specs.Fed.{fed_from};
ghost use Rattle.survey.specs.Told.{fed_to};

use records::Fields;
use rows::Rows;
use runfiles::{RunFault, feed_record};

// Feeds the next records, at most `most`, or up to the first that is refused.
pub(crate) fn feed_records(
    fields: &mut Fields<'_>,
    rows: &mut Rows<'_>,
    most: usize,
) -> Result<(), RunFault>
    ensures run { fed_to result (meaning_of rows.new) ≡ fed_from (length (cells_of rows.old)) fields.old.bytes.now most (cursor fields.old) (meaning_of rows.old) }
    ensures long { length (cells_of rows.new) ≡ length (cells_of rows.old) }
{
    // A bound and no `while`: what a file means is defined down the bound.
    for _ in 0..most {
        if !feed_record(fields, rows)? {
            return Ok(());
        }
    }
    Ok(())
}
