// The fields of a file, one after the other.
ghost use Rattle.std.specs.Prelude.{◌+◌, ◌≤◌, length};

use super::cut::Next;
use super::fault::Position;

mod gathered;
mod read;
mod records;
mod titles;

pub use titles::LARGEST_FILE;

// The reader: the file's bytes and where the next field begins in them.
// Contracts speak of its bytes and its cursor apart, and not of a model of both, since a struct with a model and a lifetime is not Copy.
#[derive(Clone, Copy)]
pub struct Fields<'a> {
    bytes: &'a [u8],
    // Where the next field begins, or where the bytes end: the place is told in either case, so it is no Option.
    at: Position,
    // The file has no further field.
    ended: bool,
    ghost within: { at.byte ≤ length bytes.now },
    ghost counted: { at.row + at.column ≤ at.byte },
}

// A field as it stands in the bytes. The text is what is between its quotes, if it has them, with doubled quotes still doubled.
#[derive(Clone, Copy, PartialEq, Eq, Debug)]
pub struct Field<'a> {
    pub text: &'a [u8],
    // A field has quotes or not, and has a text in either case.
    pub quoted: bool,
    pub at: Position,
    pub next: Next,
}
