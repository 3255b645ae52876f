// What a criterion is read for.
use records::Header;

// The largest magnitude that a criterion is read for.
pub const LARGEST_MAGNITUDE: u64 = 1_000_000_000;

// The columns of a run, and the largest magnitude of their values.
#[derive(Clone, Copy)]
pub struct Scope<'h> {
    pub header: Header<'h>,
    pub magnitude: u64,
}
