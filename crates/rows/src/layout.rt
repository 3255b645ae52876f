// How states lie in rows of cells: a stay and then the values.
ghost use Rattle.std.specs.Prelude.{◌≡◌, ◌+◌, ◌*◌, length, pos};
ghost use Rattle.std.proofs.Props.{props};
ghost use Rattle.rows.specs.Rows.{row_coding, row_largest};

use runs::Offer;
use stores::{Filled, Layout, fill};

// Rows keep nothing beside the cells.
#[derive(Clone, Copy)]
pub struct RowLayout;

impl Layout for RowLayout {
    const LARGEST: i64 = 1_000_000_000;

    ghost coding = { row_coding };

    ghost kept = { λ x shape n cells. length cells ≡ n * (shape.width + 1) };

    ghost fact = { λ x shape n cells. Prim.hlevel props };

    fn largest_magnitude() -> i64
        ensures { result ≡ pos row_largest }
    {
        Self::LARGEST
    }

    fn start() -> Self {
        RowLayout
    }

    fn need(&self, filled: Filled<'_>, _offer: Offer<'_>) -> usize {
        filled.head.shape.width + 1
    }

    fn keep(&mut self, _filled: Filled<'_>, free: &mut [i32], offer: Offer<'_>) {
        free[0] = offer.stay as i32;
        fill(&mut free[1..], offer.values);
    }

    #[tactic(auto, using(crate::proofs::RowStates::row_stay))]
    fn stay(&self, filled: Filled<'_>, i: usize) -> u64 {
        let row = i * (filled.head.shape.width + 1);
        u64::from(filled.cells[row].unsigned_abs())
    }

    #[tactic(auto, using(crate::proofs::RowStates::row_value))]
    fn value(&self, filled: Filled<'_>, i: usize, v: usize) -> i64 {
        let row = i * (filled.head.shape.width + 1);
        i64::from(filled.cells[row + 1 + v])
    }
}
