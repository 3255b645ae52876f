// How a kind of recorder lays its states in cells.
ghost use Rattle.std.specs.Prelude.{◌≡◌, ℕ, ◌+◌, ◌<◌, ◌≤◌, List, [], ◌∷◌, ◌++◌, length, ℤ, pos, None, Some};
ghost use Rattle.runs.specs.Feeding.{state_of, unlawful};
ghost use Rattle.runs.specs.Offers.{told};
ghost use Rattle.runs.specs.Runs.{stay_at, value_at};
ghost use Rattle.runs.specs.declared.shape.Shape.{Shape};
ghost use Rattle.stores.specs.Coding.{Coding};
ghost use Rattle.stores.specs.Filled.{added_to, needed_in, over, states_in};

use super::head::Head;
use runs::Offer;

// The cells that are filled, and what the head knows of the states in them.
#[derive(Clone, Copy)]
pub struct Filled<'a> {
    pub head: Head,
    pub cells: &'a [i32],
}

// A layout holds no cells, so no field of it can say that what it keeps is true of them: each call requires it.
// Nor does a type stand for a lawful offer: it would hold the shape and the magnitude too, and each call would require that they are these.
pub trait Layout: Drop {
    // The largest magnitude of a value that a cell can hold.
    const LARGEST: i64;

    // How the states lie in the cells.
    ghost coding: { Coding };

    // That what a layout keeps beside the cells of so many states is true of them.
    ghost kept: { Self → Shape → ℕ → List ℤ → Type 0 };

    // That it is a proposition, as each field of an invariant has to be.
    ghost fact: { (x : Self) (shape : Shape) (n : ℕ) (cells : List ℤ) → IsProp (kept x shape n cells) };

    // `LARGEST` for the contracts of stores, whose type has a lifetime.
    fn largest_magnitude() -> i64
        ensures { result ≡ pos coding.largest };

    // What stands beside cells without states.
    fn start() -> Self
        ensures { (shape : Shape) → shape.width ≤ 16 → kept result shape 0 [] };

    // How many cells a lawful state needs.
    fn need(&self, filled: Filled<'_>, offer: Offer<'_>) -> usize
        requires kept { kept self.now filled.head.shape filled.head.count filled.cells.now }
        requires lawful { unlawful filled.head.shape coding.largest (told offer) ≡ None }
        ensures { result ≡ needed_in coding filled.entry (told offer.entry) };

    // Writes a lawful state in the first of the free cells.
    fn keep(&mut self, filled: Filled<'_>, free: &mut [i32], offer: Offer<'_>)
        requires kept { kept self.old filled.head.shape filled.head.count filled.cells.now }
        requires lawful { unlawful filled.head.shape coding.largest (told offer) ≡ None }
        requires few { filled.head.count < 4096 }
        requires room { needed_in coding filled (told offer) ≤ length free.old }
        ensures cells { free.new ≡ over (added_to coding filled.entry (told offer.entry)) free.old }
        ensures kept { kept self.new filled.entry.head.shape (filled.entry.head.count + 1) (filled.entry.cells.now ++ added_to coding filled.entry (told offer.entry)) }
        ensures states { coding.states filled.entry.head.shape (filled.entry.head.count + 1) (filled.entry.cells.now ++ added_to coding filled.entry (told offer.entry)) ≡ states_in coding filled.entry ++ (state_of (told offer.entry) ∷ []) };

    // The stay of state i, and the value of its variable v.
    fn stay(&self, filled: Filled<'_>, i: usize) -> u64
        requires kept { kept self.now filled.head.shape filled.head.count filled.cells.now }
        requires state { i < filled.head.count }
        ensures { Some result ≡ stay_at (states_in coding filled.entry) i };

    fn value(&self, filled: Filled<'_>, i: usize, v: usize) -> i64
        requires kept { kept self.now filled.head.shape filled.head.count filled.cells.now }
        requires state { i < filled.head.count }
        requires variable { v < filled.head.shape.width }
        ensures { Some result ≡ value_at (states_in coding filled.entry) i v };
}
