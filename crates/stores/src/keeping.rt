// What a head answers of its cells, and what it refuses.
ghost use Rattle.std.specs.Prelude.{◌≡◌, List, [], length, unsigned_abs};
ghost use Rattle.runs.specs.Feeding.{answer, closed, close_refusal, feed_refusal};
ghost use Rattle.runs.specs.Offers.{told};
ghost use Rattle.runs.specs.Runs.{State};
ghost use Rattle.runs.specs.Shapes.{begun};
ghost use Rattle.stores.specs.Cells.{free_of, head_meaning};

use super::head::Head;
use runs::{Mark, Offer, Refusal, Shape};

impl Head {
    // An open run without states.
    pub fn start(shape: Shape) -> Head
        ensures meaning { head_meaning result [] ≡ begun shape }
        ensures count { result.count ≡ 0 }
        ensures used { result.used ≡ 0 }
    {
        Head {
            shape: shape.clamped(),
            count: 0,
            used: 0,
            mark: Mark::Open,
        }
    }

    // How many of so many cells are free.
    pub fn free(self, cells: usize) -> usize
        ensures { result ≡ free_of self cells }
    {
        if self.count >= Shape::MOST_STATES {
            0
        } else {
            cells.saturating_sub(self.used)
        }
    }

    // Why a feed is refused, if it is, where the state needs so many cells. The states that are kept do not matter.
    // An Option, as of `Shape::unlawful`: it is a question, and feed and close refuse by its answer.
    pub fn feed_refusal(
        self,
        largest: i64,
        free: usize,
        need: usize,
        offer: Offer<'_>,
    ) -> Option<Refusal>
        ensures { result ≡ feed_refusal (unsigned_abs largest) free need (head_meaning self []) (told offer.entry) }
    {
        if self.mark.ended() {
            return Some(Refusal::Ended);
        }
        if let Some(refusal) = self.shape.unlawful(largest, offer) {
            return Some(refusal);
        }
        if need > free {
            return Some(Refusal::Full);
        }
        None
    }

    // Why a close is refused, if it is. Of the states only their number matters.
    pub fn close_refusal(self) -> Option<Refusal>
        ensures { (states : List State) → length states ≡ self.count → result ≡ close_refusal (head_meaning self states) }
    {
        if self.mark.ended() {
            Some(Refusal::Ended)
        } else if self.count == 0 {
            Some(Refusal::NoStates)
        } else {
            None
        }
    }

    // Ends the run, whatever its states are, or refuses and changes nothing.
    pub fn close(&mut self) -> Result<(), Refusal>
        ensures answer { (states : List State) → length states ≡ self.old.count → result ≡ answer (close_refusal (head_meaning self.old states)) }
        ensures after { (states : List State) → length states ≡ self.old.count → head_meaning self.new states ≡ closed (head_meaning self.old states) }
        ensures shape { self.new.shape ≡ self.old.shape }
        ensures count { self.new.count ≡ self.old.count }
        ensures used { self.new.used ≡ self.old.used }
    {
        if let Some(refusal) = (*self).close_refusal() {
            return Err(refusal);
        }
        self.mark = Mark::Closed;
        Ok(())
    }
}
