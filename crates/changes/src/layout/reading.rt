// How a state is found again: by walking from the waypoint before it, over at most 64 states.
// The walks are loops: tried as folds, what the closure requires at each state and the result stayed open.
// They are two, since a stay is found without the value of a change.
ghost use Rattle.std.specs.Prelude.{◌≡◌, ◌+◌, ◌<◌, ◌≤◌, length};
ghost use Rattle.changes.specs.Encoding.{changed_at, changed_to, changes_at, place_of, value_before};
ghost use Rattle.changes.specs.Kept.{Kept};

use super::ChangeLayout;
use crate::change::Change;
use crate::waypoints::STRIDE;
use stores::Filled;

// The changes of the state at a cell.
fn changes_at(cells: &[i32], at: usize) -> &[i32]
    requires { at + 2 + changed_at cells.now at ≤ length cells.now }
    ensures changes { result.now ≡ changes_at cells.now at }
    ensures number { length result.now ≡ changed_at cells.now at }
{
    let count = cells[at + 1].unsigned_abs() as usize;
    &cells[at + 2..at + 2 + count]
}

// The value of a variable once these changes are made.
fn value_past(changes: &[i32], v: usize, before: i32) -> i32
    ensures { result ≡ changed_to v changes.now before }
{
    changes.iter().fold(
        before,
        |value, cell| Change::from(*cell).value_after(v, value),
    )
}

impl ChangeLayout {
    // Where state i begins.
    #[tactic(auto, using(crate::proofs::Places::walk_fits))]
    pub(super) fn place(&self, filled: Filled<'_>, i: usize) -> usize
        requires kept { Kept self.now.last self.now.waypoints.0 filled.head.shape filled.head.count filled.cells.now }
        requires state { i < filled.head.count }
        ensures place { result ≡ place_of filled.entry.cells.now i }
        ensures there { result < length filled.entry.cells.now }
    {
        let mut at = self.waypoints.place_before(i);
        for _state in STRIDE * (i / STRIDE)..i {
            at += 2 + changes_at(filled.cells, at).len();
        }
        at
    }

    // The value of variable v in state i.
    #[tactic(auto, using(crate::proofs::Places::walk_fits))]
    pub(super) fn value_in(&self, filled: Filled<'_>, i: usize, v: usize) -> i32
        requires kept { Kept self.now.last self.now.waypoints.0 filled.head.shape filled.head.count filled.cells.now }
        requires state { i < filled.head.count }
        requires variable { v < filled.head.shape.width }
        ensures { result ≡ value_before filled.entry.cells.now v (i + 1) }
    {
        let mut at = self.waypoints.place_before(i);
        let mut value = self.waypoints.value_before(i, v);
        for _state in STRIDE * (i / STRIDE)..i + 1 {
            let changes = changes_at(filled.cells, at);
            value = value_past(changes, v, value);
            at += 2 + changes.len();
        }
        value
    }
}
