// Runs in rows of cells: a state is a stay and then its values.
#![tactic(auto)]

// How states lie in rows.
mod layout;
// The recorder.
mod rows;

pub use layout::RowLayout;
pub use rows::Rows;
