// Late views of late views.
use super::numbered::{SINGLES, feed};
use super::steps::Act::{Close, Feed};
use super::steps::{Step, feed_three, play_from};
use rows::Rows;
use runs::Recorder;
use std::process::Abort;
use std::test::Fail;
use views::Late;

// Plays the steps on a view from state `upper` on of a view from state `lower` on.
fn play_on_pile<R: Recorder>(
    rt: &impl Abort,
    foot: &mut R,
    lower: usize,
    upper: usize,
    steps: &[Step],
) {
    play_from(rt, &mut Late::from_state(foot, lower), upper, steps);
}

// How many states a recorder has after each of five feeds.
fn growth<R: Recorder>(recorder: &mut R) -> Result<[usize; 5], u8> {
    let mut counts = [0; 5];
    for count in counts.iter_mut() {
        feed(recorder, 1, &[0])?;
        *count = recorder.count();
    }
    Ok(counts)
}

fn growth_on_pile<R: Recorder>(foot: &mut R, lower: usize, upper: usize) -> Result<[usize; 5], u8> {
    let mut below = Late::from_state(foot, lower);
    growth(&mut Late::from_state(&mut below, upper))
}

// How a pile over a run of three states grows.
fn growth_over_three(lower: usize, upper: usize) -> Result<[usize; 5], u8> {
    let mut cells = [0; 16];
    let mut rows = Rows::start(&mut cells, SINGLES);
    feed_three(&mut rows)?;
    growth_on_pile(&mut rows, lower, upper)
}

#[test]
fn leads_add_up(rt: HostRuntime) -> Result<(), Fail> {
    let cases = [
        (0, 0, [4, 5, 6, 7, 8]),
        (1, 1, [2, 3, 4, 5, 6]),
        (2, 3, [0, 0, 1, 2, 3]),
        (3, 1, [0, 1, 2, 3, 4]),
        (5, 1, [0, 0, 0, 1, 2]),
        (1, 5, [0, 0, 0, 1, 2]),
        (5_000, 0, [0; 5]),
        (5_000, usize::MAX, [0; 5]),
    ];
    for (lower, upper, counts) in cases {
        assert_eq!(rt;
            growth_over_three(lower, upper)?,
            counts,
            "{upper} over {lower}"
        );
    }
    Ok(())
}

#[test]
fn a_pile_feeds_and_closes_the_run_at_its_foot(rt: HostRuntime) -> Result<(), Fail> {
    let mut cells = [0; 12];
    let mut rows = Rows::start(&mut cells, SINGLES);
    feed_three(&mut rows)?;
    let two = (2, Some(4), Some(40), 2);
    let steps = [
        // The view below has a state, this one has none.
        (Close, Err(14), (0, None, None, 6)),
        (Feed(4, 40), Ok(()), (1, Some(4), Some(40), 4)),
        (Feed(0, 50), Err(11), (1, Some(4), Some(40), 4)),
        (Feed(5, 50), Ok(()), two),
        (Close, Ok(()), two),
        (Close, Err(10), two),
        (Feed(6, 60), Err(10), two),
    ];
    play_on_pile(&rt, &mut rows, 2, 1, &steps);
    assert_eq!(rt; (rows.count(), rows.mark().ended()), (5, true));
    assert_eq!(rt; cells, [1, 10, 2, 20, 3, 30, 4, 40, 5, 50, 0, 0]);
    Ok(())
}
