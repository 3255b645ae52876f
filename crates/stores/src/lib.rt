// Recorders with cells of their own: what they share, and how a kind of them lays its states in the cells.
#![tactic(auto)]

// What such a recorder knows beside its cells.
mod head;
// What a head answers and refuses.
mod keeping;
// Cells that take values.
mod cells;
// How states lie in cells.
mod layout;
// The recorder, for every layout.
mod store;

pub use cells::fill;
pub use head::Head;
pub use layout::{Filled, Layout};
pub use store::Store;
