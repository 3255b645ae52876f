// Reading the header.
ghost use Rattle.std.specs.Prelude.{◌≡◌, ℕ, List};
ghost use Rattle.records.specs.Bytes.{quote};
ghost use Rattle.records.specs.Cursor.{Seen};
ghost use Rattle.records.specs.Firsts.{Firsts};
ghost use Rattle.records.specs.Headers.{behind_header, holds, names_at, title, titles_of};
ghost use Rattle.records.specs.RecordFields.{map_ok};
ghost use Rattle.records.specs.Told.{cursor, firsts, lent, seen_field, told_header};

use super::super::fault::{Position, RecordFault};
use super::super::heading::Header;
use super::super::kept::Kept;
use super::gathered::Gathered;
use super::{Field, Fields};

// The most bytes that a run file may have.
pub const LARGEST_FILE: usize = 65_536;

// Whether a quote stands in a text. A search by a test, and no `contains`, so that an edit can turn the test alone.
fn has_quote(text: &[u8]) -> bool
    ensures { result ≡ holds text.now quote }
{
    text.iter().any(|b| *b == b'"')
}

// The field, in which no quote may stand.
fn title_in<'a>(field: Field<'a>) -> Result<Field<'a>, RecordFault>
    ensures { map_ok seen_field result ≡ title (seen_field field.entry) }
{
    if has_quote(field.text) {
        return Err(RecordFault::Quote(field.at));
    }
    Ok(field)
}

// The fields of a header.
impl<'a> Gathered<'a> for Kept<&'a [u8]> {
    ghost Item = { Seen };

    ghost Sum = { Firsts (List ℕ) };

    ghost read = { title };

    ghost sum_of = { titles_of };

    ghost told = { λ k. lent (firsts k) };

    fn none(at: Position) -> Kept<&'a [u8]> {
        Kept::new(at, b"")
    }

    fn take(&mut self, field: Field<'a>) -> Result<(), RecordFault> {
        let title = title_in(field)?;
        self.keep(title.text, title.at);
        Ok(())
    }
}

impl<'a> Fields<'a> {
    // The next record, which is the header. A refusal leaves the reader where it is.
    pub fn header(&mut self) -> Result<Header<'a>, RecordFault>
        ensures answer { told_header result ≡ names_at self.old.bytes.now (cursor self.old) }
        ensures after { cursor self.new ≡ behind_header self.old.bytes.now (cursor self.old) }
        ensures bytes { self.new.bytes ≡ self.old.bytes }
    {
        if self.bytes.len() > LARGEST_FILE {
            return Err(RecordFault::TooLong);
        }
        let mut ahead = *self;
        let header = Header::of(ahead.gather()?)?;
        *self = ahead;
        Ok(header)
    }
}
