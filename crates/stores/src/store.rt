// A recorder in the caller's cells, for every layout of states in cells.
ghost use Rattle.std.specs.Prelude.{◌≡◌, ◌≤◌, true, length};
ghost use Rattle.stores.specs.Cells.{are_lawful};
ghost use Rattle.stores.specs.Filled.{filled_by, states_by};

use super::head::Head;
use super::layout::Layout;

// How stores start and are filled.
mod filling;
// Stores as recorders.
mod recorder;
// Lists of calls in stores.
mod recording;

#[derive(Drop)]
pub struct Store<'a, L: Layout> {
    head: Head,
    layout: L,
    cells: &'a mut [i32],
    ghost within: { head.used ≤ length cells.now },
    ghost kept: { L.kept layout head.shape head.count (filled_by head cells.now) } by { L.fact layout head.shape head.count (filled_by head cells.now) },
    ghost lawful: { are_lawful head.shape L.coding.largest (states_by L.coding head cells.now) ≡ true },
    ghost exact: { filled_by head cells.now ≡ L.coding.cells head.shape (states_by L.coding head cells.now) },
}
