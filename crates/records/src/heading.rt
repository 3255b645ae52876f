// The header: `stay`, and then the names of the columns.
use super::kept::Kept;

mod checks;
mod names;

// The fields of a header, `stay` first.
#[derive(Clone, Copy)]
pub struct Header<'a> {
    kept: Kept<&'a [u8]>,
}
