// Reading one field.
ghost use Rattle.std.specs.Prelude.{◌≡◌, ◌+◌, ◌≤◌, length};
ghost use Rattle.records.specs.Cursor.{start, field_at, moved, text_of, behind};
ghost use Rattle.records.specs.Exact.{Exact};
ghost use Rattle.records.specs.Fields.{Lies, separator};
ghost use Rattle.records.specs.Told.{cursor, told_field};

use super::super::cut::{Cut, Next, cut_field};
use super::super::fault::{Position, TextFault};
use super::{Field, Fields};

impl<'a> Fields<'a> {
    // The fields of a file, from its first byte on.
    pub fn over(bytes: &'a [u8]) -> Fields<'a>
        ensures place { cursor result ≡ start }
        ensures bytes { result.bytes ≡ bytes.entry }
    {
        Fields {
            bytes,
            at: Position::START,
            ended: false,
        }
    }

    // The next field, or None once the file has ended. A refusal leaves the reader where it is.
    // The law: called from the start of the bytes to their end, it yields what the grammar of RFC 4180 derives, and nothing else.
    pub fn next_field(&mut self) -> Result<Option<Field<'a>>, TextFault>
        ensures answer { told_field result ≡ field_at self.old.bytes.now (cursor self.old) }
        ensures after { cursor self.new ≡ moved self.old.bytes.now (cursor self.old) }
        ensures bytes { self.new.bytes ≡ self.old.bytes }
        ensures law { Exact self.old.bytes.now }
    {
        if self.ended {
            return Ok(None);
        }
        let bytes = self.bytes;
        let at = self.at;
        let from = at.byte;
        let rest = &bytes[from..];
        let Some(cut) = cut_field(rest) else {
            return Err(TextFault { at });
        };
        let text = text_of(rest, cut);
        self.at = next_place(bytes, at, cut);
        self.ended = cut.next == Next::End;
        Ok(Some(Field {
            text,
            quoted: cut.quoted,
            at,
            next: cut.next,
        }))
    }
}

// The text of a field at the front of `rest`, without its quotes.
fn text_of<'a>(rest: &'a [u8], cut: Cut) -> &'a [u8]
    requires { Lies rest.now cut }
    ensures { result.now ≡ text_of rest.now cut }
{
    let end = cut.size;
    if cut.quoted {
        &rest[1..end - 1]
    } else {
        &rest[..end]
    }
}

// Where the field after a cut at `at` begins, or the file's end.
fn next_place(bytes: &[u8], at: Position, cut: Cut) -> Position
    requires within { at.byte + (cut.size + separator cut.next) ≤ length bytes.now }
    requires counted { at.row + at.column ≤ at.byte }
    ensures place { result ≡ behind bytes.now at cut cut.next }
    ensures within { result.byte ≤ length bytes.now }
    ensures counted { result.row + result.column ≤ result.byte }
{
    let behind = at.byte + cut.size;
    match cut.next {
        Next::Field => Position {
            column: at.column + 1,
            byte: behind + 1,
            ..at
        },
        Next::Record => Position {
            row: at.row + 1,
            column: 0,
            byte: behind + 2,
        },
        Next::End => Position {
            byte: bytes.len(),
            ..at
        },
    }
}
