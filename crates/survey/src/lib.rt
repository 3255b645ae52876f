// What a run file holds: its columns, its states and their ticks, and the range of each column's values.
#![tactic(auto)]

// The range of some numbers.
mod range;
// The sums over the states of a run.
mod summary;
// A run file fed into rows.
mod kept;

// A whole run file.
mod whole;

// The lines that say so.
mod lines;

pub use lines::statement;
pub use range::Range;
pub use summary::Summary;
pub use whole::Survey;
