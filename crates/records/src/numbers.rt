// A data record: the stay, and then the values.
use super::fault::Position;
use super::kept::Kept;

mod growing;
mod questions;

// A data record: the numbers of its first 17 fields, the stay and up to 16 values.
#[derive(Clone, Copy)]
pub struct Record {
    fields: Kept<i64>,
}

// One number field. The value is None where it is beyond the limit.
#[derive(Clone, Copy)]
pub struct Entry {
    pub at: Position,
    pub value: Option<i64>,
}

// A record that is being read, and the first field of it so far that is beyond the limit.
#[derive(Clone, Copy)]
pub struct Draft {
    kept: Kept<i64>,
    pub beyond: Option<Position>,
}
