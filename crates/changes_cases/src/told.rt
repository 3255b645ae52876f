// A shape, and what is told of a run.
// Some of it stands in the tests of runs too: the tests of changes are a crate of their own, so that a change in one proves little again.
use runs::{Offer, Recorder, Shape};

pub const PAIRS: Shape = Shape {
    width: 2,
    longest: 10,
};

// A state as it is offered, in short.
pub fn offer(stay: i64, values: &[i64]) -> Offer<'_> {
    Offer { stay, values }
}

// A feed, with its refusal as a number.
pub fn feed<R: Recorder>(recorder: &mut R, stay: i64, values: &[i64]) -> Result<(), u8> {
    recorder
        .feed(offer(stay, values))
        .map_err(|refusal| refusal.number())
}

// The stay of a state, and its first two values.
pub type Told = (Option<u64>, Option<i64>, Option<i64>);

pub fn told<R: Recorder>(recorder: &R, i: usize) -> Told {
    (recorder.stay(i), recorder.value(i, 0), recorder.value(i, 1))
}
