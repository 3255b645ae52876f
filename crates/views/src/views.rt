// Late views: the run of any recorder without its first states.
ghost use Rattle.std.specs.Prelude.{◌≡◌, ◌+◌, ◌-◌, ◌^◌, min, not, ◌&&◌, length, drop, ◌==◌};
ghost use Rattle.std.specs.List.{slice_get};
ghost use Rattle.runs.specs.Runs.{ended};
ghost use Rattle.views.specs.Views.{view_sound, viewed};

use runs::{Mark, Offer, Recorder, Refusal, Shape};

#[derive(Drop)]
pub struct Late<R> {
    below: R,
    passed: usize,
}

impl<R: Recorder> Late<R> {
    // The run below from its state k on, which may be still to come.
    pub fn from_state(below: R, k: usize) -> Late<R>
        ensures below { result.below ≡ below }
        ensures passed { result.passed ≡ min k 4096 }
    {
        Late {
            below,
            passed: k.min(Shape::MOST_STATES),
        }
    }

    // How many of so many states below are the view's.
    fn own(&self, count: usize) -> usize
        ensures { result ≡ count - self.now.passed }
    {
        count.saturating_sub(self.passed)
    }

    // Which state below is state i of the view. Where the sum saturates, no state is there.
    fn state_below(&self, i: usize) -> usize
        ensures value { result ≡ min (self.now.passed + i) (2 ^ 64 - 1) }
        ensures state { slice_get (R.Recorder.meaning self.now.below).run.states result ≡ slice_get (drop self.now.passed (R.Recorder.meaning self.now.below).run.states) i }
    {
        self.passed.saturating_add(i)
    }

    // Does the view lack the state that a close asks for?
    fn lacks_state(&self) -> bool
        ensures { result ≡ (length (R.Recorder.meaning self.now.below).run.states - self.now.passed == 0 && not (ended (R.Recorder.meaning self.now.below).run.mark)) }
    {
        self.own(self.below.count()) == 0 && !self.below.mark().ended()
    }
}

// Questions are passed on one by one, since an impl of a trait has each method.
impl<R: Recorder> Recorder for Late<R> {
    const LARGEST: i64 = R::LARGEST;

    ghost largest = { R.Recorder.largest };

    ghost meaning = { λ x. viewed x.passed (R.Recorder.meaning x.below) };

    ghost room = { λ x. R.Recorder.room x.below };

    ghost price = { λ x. R.Recorder.price x.below };

    ghost cells = { λ x. R.Recorder.cells x.below };

    ghost written = { λ x. R.Recorder.written x.below };

    ghost place = { λ x. R.Recorder.place x.below };

    ghost sound = { λ x. view_sound R.Recorder.largest x.passed (R.Recorder.meaning x.below) (R.Recorder.sound x.below) };

    ghost priced = { λ x. R.Recorder.priced x.below };

    fn largest_magnitude() -> i64 {
        R::largest_magnitude()
    }

    fn shape(&self) -> Shape {
        self.below.shape()
    }

    fn count(&self) -> usize {
        self.own(self.below.count())
    }

    fn mark(&self) -> Mark {
        self.below.mark()
    }

    fn free(&self) -> usize {
        self.below.free()
    }

    fn need(&self, offer: Offer<'_>) -> usize {
        self.below.need(offer)
    }

    fn stay(&self, i: usize) -> Option<u64> {
        self.below.stay(self.state_below(i))
    }

    fn value(&self, i: usize, v: usize) -> Option<i64> {
        self.below.value(self.state_below(i), v)
    }

    fn feed(&mut self, offer: Offer<'_>) -> Result<(), Refusal> {
        self.below.feed(offer)
    }

    // Closes the run below, unless the view has no state of its own.
    fn close(&mut self) -> Result<(), Refusal> {
        if self.lacks_state() {
            return Err(Refusal::NoStates);
        }
        self.below.close()
    }
}
