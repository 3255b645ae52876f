// Tables of calls on a run of one variable, with what is answered and seen.
use super::numbered::{close, feed};
use runs::Recorder;
use std::process::Abort;
use views::Late;

#[derive(Clone, Copy)]
pub enum Act {
    // A stay and a value.
    Feed(i64, i64),
    Close,
}

// The number of states, the stay and the value of the first, and the free cells.
pub type Seen = (usize, Option<u64>, Option<i64>, usize);

pub fn seen<R: Recorder>(recorder: &R) -> Seen {
    (
        recorder.count(),
        recorder.stay(0),
        recorder.value(0, 0),
        recorder.free(),
    )
}

// A call, its answer, and what is seen then.
pub type Step = (Act, Result<(), u8>, Seen);

pub fn play<R: Recorder>(rt: &impl Abort, recorder: &mut R, steps: &[Step]) {
    for (i, &(act, answer, then)) in steps.iter().enumerate() {
        let answered = match act {
            Act::Feed(stay, value) => feed(recorder, stay, &[value]),
            Act::Close => close(recorder),
        };
        assert_eq!(rt; answered, answer, "step {i}");
        assert_eq!(rt; seen(recorder), then, "after step {i}");
    }
}

// Plays the steps on a late view.
pub fn play_from<R: Recorder>(rt: &impl Abort, below: &mut R, k: usize, steps: &[Step]) {
    play(rt, &mut Late::from_state(below, k), steps);
}

// Feeds the stays 1, 2 and 3 with the values 10, 20 and 30.
pub fn feed_three<R: Recorder>(recorder: &mut R) -> Result<(), u8> {
    feed(recorder, 1, &[10])?;
    feed(recorder, 2, &[20])?;
    feed(recorder, 3, &[30])
}
