// How states lie in cells of changes: a stay, the number of variables that change, and a cell for each of them.
ghost use Rattle.std.specs.Prelude.{◌≡◌, pos};
ghost use Rattle.std.proofs.Props.{props};
ghost use Rattle.changes.specs.Coding.{change_coding};
ghost use Rattle.changes.specs.Encoding.{change_largest};
ghost use Rattle.changes.specs.Kept.{Kept};

use super::waypoints::{Waypoint, Waypoints};
use runs::{Offer, Shape};
use stores::{Filled, Layout};

// How a state is written.
mod filling;
// How a state is found again.
mod reading;

#[derive(Drop)]
pub struct ChangeLayout {
    // The values of the last state, of which the first ones are the variables'. There is no heap, so the array is as wide as a run can be.
    last: [i32; Shape::WIDEST],
    waypoints: Waypoints,
}

impl Layout for ChangeLayout {
    const LARGEST: i64 = 100_000_000;

    ghost coding = { change_coding };

    ghost kept = { λ x shape n cells. Kept x.last x.waypoints.0 shape n cells };

    ghost fact = { λ x shape n cells. Prim.hlevel props };

    fn largest_magnitude() -> i64
        ensures { result ≡ pos change_largest }
    {
        Self::LARGEST
    }

    #[tactic(auto, using(crate::proofs::Places::values_start))]
    fn start() -> Self {
        ChangeLayout {
            last: [0; Shape::WIDEST],
            waypoints: Waypoints::new(),
        }
    }

    fn need(&self, _filled: Filled<'_>, offer: Offer<'_>) -> usize {
        2 + self.changed(offer.values)
    }

    fn keep(&mut self, filled: Filled<'_>, free: &mut [i32], offer: Offer<'_>) {
        self.write(free, offer);
        let waypoint = Waypoint {
            place: filled.cells.len(),
            values: self.last,
        };
        self.waypoints.note(filled.head.count, waypoint);
        self.update(offer.values);
    }

    #[tactic(auto, using(crate::proofs::ToldStates::told_stay))]
    fn stay(&self, filled: Filled<'_>, i: usize) -> u64 {
        let at = self.place(filled, i);
        u64::from(filled.cells[at].unsigned_abs())
    }

    #[tactic(auto, using(crate::proofs::ToldStates::told_value))]
    fn value(&self, filled: Filled<'_>, i: usize, v: usize) -> i64 {
        i64::from(self.value_in(filled, i, v))
    }
}
