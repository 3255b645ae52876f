// A recorder of values up to 5 that has no cells, so that it refuses every state.
ghost use Rattle.std.specs.Prelude.{◌≡◌, [], pos};
ghost use Rattle.std.specs.Int.{IsInRange};
ghost use Rattle.runs_cases.specs.NoCells.{cell_need, no_states, none_priced, none_sound};

use runs::{Mark, Offer, Recorder, Refusal, Shape};

#[derive(Drop)]
pub struct NoCells {
    shape: Shape,
    ghost width: { IsInRange 1 16 shape.width },
    ghost longest: { IsInRange 1 100000 shape.longest },
}

impl NoCells {
    pub fn start(shape: Shape) -> NoCells {
        NoCells {
            shape: shape.clamped(),
        }
    }
}

impl Recorder for NoCells {
    const LARGEST: i64 = 5;

    ghost largest = { 5 };

    ghost meaning = { λ x. no_states x.shape };

    ghost room = { λ _. 0 };

    ghost price = { λ x. cell_need x.shape };

    ghost cells = { λ _. [] };

    ghost written = { λ _ _. [] };

    ghost place = { λ _. 0 };

    ghost sound = { λ x. none_sound x.shape x.width x.longest };

    ghost priced = { λ x. none_priced x.shape };

    fn largest_magnitude() -> i64
        ensures { result ≡ pos 5 }
    {
        Self::LARGEST
    }

    fn shape(&self) -> Shape {
        self.shape
    }

    fn count(&self) -> usize {
        0
    }

    fn mark(&self) -> Mark {
        Mark::Open
    }

    fn free(&self) -> usize {
        0
    }

    fn need(&self, offer: Offer<'_>) -> usize {
        match self.shape.unlawful(Self::LARGEST, offer) {
            Some(_) => 0,
            None => 1,
        }
    }

    fn stay(&self, _i: usize) -> Option<u64> {
        None
    }

    fn value(&self, _i: usize, _v: usize) -> Option<i64> {
        None
    }

    fn feed(&mut self, offer: Offer<'_>) -> Result<(), Refusal> {
        let unlawful = self.shape.unlawful(Self::LARGEST, offer);
        Err(unlawful.unwrap_or(Refusal::Full))
    }

    fn close(&mut self) -> Result<(), Refusal> {
        Err(Refusal::NoStates)
    }
}
