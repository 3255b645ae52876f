// How stores start and are filled.
ghost use Rattle.std.specs.Prelude.{◌≡◌, ◌+◌, ◌<◌, ◌≤◌, length, None};
ghost use Rattle.runs.specs.Feeding.{state_of, unlawful, with_state};
ghost use Rattle.runs.specs.Offers.{told};
ghost use Rattle.runs.specs.Shapes.{begun};
ghost use Rattle.stores.specs.Filled.{filled_by};
ghost use Rattle.stores.specs.Stores.{cells_of, free_in, left_in, meaning_of, states_of, written_in};

use super::Store;
use crate::{Filled, Head, Layout};
use runs::{Offer, Shape};

impl<'a, L: Layout> Store<'a, L> {
    // An open run without states, whose shape is the lawful one nearest to `shape`. No cell changes.
    // `ghost_name` tells which cells are lent: by it, here and where the store is fed, a caller finds its own cells again.
    pub fn start(cells: &'a mut [i32], shape: Shape) -> Store<'a, L>
        ensures meaning { meaning_of result ≡ begun shape }
        ensures free { free_in result ≡ length cells.old }
        ensures cells { cells_of result ≡ cells.old }
        ensures place { result.cells.ghost_name ≡ cells.entry.ghost_name }
    {
        Store {
            head: Head::start(shape),
            layout: L::start(),
            cells,
        }
    }

    // What the layout reads.
    pub(super) fn filled(&self) -> Filled<'_>
        ensures head { result.head ≡ self.now.head }
        ensures cells { result.cells.now ≡ filled_by self.now.head (cells_of self.now) }
    {
        Filled {
            head: self.head,
            cells: &self.cells[..self.head.used],
        }
    }

    // Keeps a state in the next cells, of which it needs so many.
    pub(super) fn keep(&mut self, need: usize, offer: Offer<'_>)
        requires lawful { unlawful self.old.head.shape L.coding.largest (told offer) ≡ None }
        requires few { self.old.head.count < 4096 }
        requires need { need ≡ L.coding.needs self.old.head.shape (states_of self.old) (told offer) }
        requires room { self.old.head.used + need ≤ length (cells_of self.old) }
        ensures after { meaning_of self.new ≡ with_state (state_of (told offer.entry)) 0 (meaning_of self.old).run }
        ensures cells { cells_of self.new ≡ written_in self.old (told offer.entry) }
        ensures place { self.new.cells.ghost_name ≡ self.old.cells.ghost_name }
        ensures free { free_in self.new ≡ left_in self.old (told offer.entry) }
    {
        let cells = &mut *self.cells;
        let (front, free) = cells.split_at_mut(self.head.used);
        let filled = Filled {
            head: self.head,
            cells: front,
        };
        self.layout.keep(filled, free, offer);
        self.head.count += 1;
        self.head.used += need;
    }
}
