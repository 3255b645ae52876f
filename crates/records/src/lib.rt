// Run files by RFC 4180, read over the caller's bytes: nothing is copied and nothing is allocated.
#![tactic(auto)]

// Whole numerals.
mod numeral;
// Where a field stands, and why a reading is refused.
mod fault;
// One field cut off the front of some bytes.
mod cut;

// The fields of a file, one after the other.
mod fields;

// The first fields of a record.
mod kept;
// The header: the names of the columns.
mod heading;
// A data record: the stay, and then the values.
mod numbers;

pub use cut::Next;
pub use fault::{Position, RecordFault, Refusal, TextFault};
pub use fields::{Field, Fields, LARGEST_FILE};
pub use heading::Header;
pub use numbers::Record;
pub use numeral::Numeral;
