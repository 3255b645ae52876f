// Runs told by their changes: a state keeps only the variables whose values change.
#![tactic(auto)]

// A variable and its new value, in one cell.
mod change;
// Places from which to walk to a state.
mod waypoints;
// How states lie in cells of changes.
mod layout;
// The recorder.
mod changes;
// A worked value.
mod worked;

pub use changes::Changes;
pub use layout::ChangeLayout;
pub use worked::first_cells;
