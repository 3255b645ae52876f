// Stores as recorders.
ghost use Rattle.std.specs.Prelude.{◌≡◌, pos};
ghost use Rattle.runs.specs.Feeding.{after, answer, fed};
ghost use Rattle.runs.specs.Offers.{told};
ghost use Rattle.stores.specs.Filled.{meaning_sound, need_priced};
ghost use Rattle.stores.specs.Stores.{cells_of, free_in, left_in, meaning_of, need_in, refusal_by, written_in};

use super::Store;
use crate::Layout;
use runs::{Mark, Offer, Recorder, Refusal, Shape};

impl<'a, L: Layout> Recorder for Store<'a, L> {
    const LARGEST: i64 = L::LARGEST;

    ghost largest = { L.coding.largest };

    ghost meaning = { meaning_of };

    ghost room = { free_in };

    ghost price = { need_in };

    ghost cells = { cells_of };

    ghost written = { written_in };

    ghost place = { λ x. x.cells.ghost_name };

    ghost sound = { λ x. meaning_sound L.coding x.head (cells_of x) x.lawful };

    ghost priced = { λ x. need_priced L.coding (meaning_of x) };

    fn largest_magnitude() -> i64
        ensures { result ≡ pos L.coding.largest }
    {
        L::largest_magnitude()
    }

    fn shape(&self) -> Shape {
        self.head.shape
    }

    fn count(&self) -> usize {
        self.head.count
    }

    fn mark(&self) -> Mark {
        self.head.mark
    }

    fn free(&self) -> usize {
        self.head.free(self.cells.len())
    }

    fn need(&self, offer: Offer<'_>) -> usize {
        match self.shape().unlawful(L::largest_magnitude(), offer) {
            Some(_) => 0,
            None => self.layout.need(self.filled(), offer),
        }
    }

    fn stay(&self, i: usize) -> Option<u64> {
        if i < self.head.count {
            Some(self.layout.stay(self.filled(), i))
        } else {
            None
        }
    }

    fn value(&self, i: usize, v: usize) -> Option<i64> {
        if i < self.head.count && v < self.head.shape.width {
            Some(self.layout.value(self.filled(), i, v))
        } else {
            None
        }
    }

    // The clauses of every recorder, and that the free cells fall by what the state needs.
    fn feed(&mut self, offer: Offer<'_>) -> Result<(), Refusal>
        ensures answer { result ≡ answer (refusal_by self.old (told offer.entry)) }
        ensures after { meaning_of self.new ≡ fed (refusal_by self.old (told offer.entry)) (told offer.entry) (meaning_of self.old) }
        ensures cells { cells_of self.new ≡ after (refusal_by self.old (told offer.entry)) (cells_of self.old) (written_in self.old (told offer.entry)) }
        ensures place { self.new.cells.ghost_name ≡ self.old.cells.ghost_name }
        ensures free { free_in self.new ≡ after (refusal_by self.old (told offer.entry)) (free_in self.old) (left_in self.old (told offer.entry)) }
    {
        let need = (*self).need(offer);
        if let Some(refusal) = self
            .head
            .feed_refusal(L::largest_magnitude(), (*self).free(), need, offer)
        {
            return Err(refusal);
        }
        self.keep(need, offer);
        Ok(())
    }

    fn close(&mut self) -> Result<(), Refusal> {
        self.head.close()
    }
}
