// The sums over the states of a run.
ghost use Rattle.std.specs.Prelude.{◌≡◌, ◌*◌, ◌^◌, ◌<◌, ◌≤◌};
ghost use Rattle.std.specs.List.{slice_get};
ghost use Rattle.survey.specs.Ranges.{joined, widened};
ghost use Rattle.survey.specs.Summaries.{no_summary, state_of, summary_of, values_at, with_state};

use super::range::Range;
use runs::{Recorder, Shape};

// The number of states, their ticks in all, and the range of each column that has values.
// The ranges stand in an array, since a summary is made without a heap and can't fail.
#[derive(Clone, Copy, PartialEq, Eq, Debug)]
pub struct Summary {
    pub states: usize,
    pub ticks: u128,
    pub ranges: [Option<Range>; Shape::WIDEST],
}

impl Summary {
    pub fn new() -> Summary
        ensures { result ≡ no_summary }
    {
        Summary {
            states: 0,
            ticks: 0,
            ranges: [None; Shape::WIDEST],
        }
    }

    // States are counted by their numbers, since a recorder is asked by them.
    pub fn of<R: Recorder>(recorder: &R) -> Summary
        ensures { result ≡ summary_of (R.meaning recorder.now).run.states }
    {
        let mut summary = Summary::new();
        for i in 0..recorder.count() {
            if let Some(stay) = recorder.stay(i) {
                summary.add(stay, recorder, i);
            }
        }
        summary
    }

    // One state more: its stay, and the values of state i.
    fn add<R: Recorder>(&mut self, stay: u64, recorder: &R, i: usize)
        requires few { self.old.states < 2 ^ 63 }
        requires small { self.old.ticks ≤ self.old.states * 2 ^ 64 }
        ensures sums { self.new ≡ with_state self.old (state_of stay (values_at (slice_get (R.meaning recorder.now).run.states i))) }
        ensures small { self.new.ticks ≤ self.new.states * 2 ^ 64 }
    {
        self.states += 1;
        self.ticks += u128::from(stay);
        widen(&mut self.ranges, recorder, i);
    }
}

// Takes the values of a state into the ranges of their columns.
fn widen<R: Recorder>(ranges: &mut [Option<Range>], recorder: &R, i: usize)
    ensures { ranges.new ≡ widened ranges.old (values_at (slice_get (R.meaning recorder.now).run.states i)) }
{
    for (column, range) in ranges.iter_mut().enumerate() {
        if let Some(value) = recorder.value(i, column) {
            *range = Some(joined(*range, value));
        }
    }
}

// The range with one number more, where that of no numbers is none.
fn joined(range: Option<Range>, number: i64) -> Range
    ensures { result ≡ joined range number }
{
    range.map_or(Range::of(number), |range| range.with(number))
}
