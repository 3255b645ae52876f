// States around those from which the walk to a state begins.
use super::told::{Told, feed, told};
use changes::Changes;
use runs::{Recorder, Shape};
use std::process::Abort;
use std::test::Fail;
use views::Late;

const TRIPLES: Shape = Shape {
    width: 3,
    longest: 9,
};

// Feeds 130 states. The first variable rises by one with each, the second falls by one with every other, and the third changes at state 127 alone.
fn feed_many<R: Recorder>(recorder: &mut R) -> Result<(), u8> {
    for state in 0..130u8 {
        let i = i64::from(state);
        let third = if i < 127 { 5 } else { -9 };
        feed(recorder, i % 9 + 1, &[i - 64, -(i / 2), third])?;
    }
    Ok(())
}

// What is told of a state, and its third value, where the states are counted from `first` on.
fn check_told<R: Recorder>(rt: &impl Abort, recorder: &R, first: usize) {
    let cases: [(usize, Told, i64); 9] = [
        (62, (Some(9), Some(-2), Some(-31)), 5),
        (63, (Some(1), Some(-1), Some(-31)), 5),
        (64, (Some(2), Some(0), Some(-32)), 5),
        (65, (Some(3), Some(1), Some(-32)), 5),
        (66, (Some(4), Some(2), Some(-33)), 5),
        (126, (Some(1), Some(62), Some(-63)), 5),
        (127, (Some(2), Some(63), Some(-63)), -9),
        (128, (Some(3), Some(64), Some(-64)), -9),
        (129, (Some(4), Some(65), Some(-64)), -9),
    ];
    for (i, expected, third) in cases {
        let i = i.saturating_sub(first);
        assert_eq!(rt; told(recorder, i), expected, "state {i}");
        assert_eq!(rt; recorder.value(i, 2), Some(third), "state {i}");
    }
    assert_eq!(rt; recorder.stay(130usize.saturating_sub(first)), None);
}

#[test]
fn every_state_is_found_by_a_short_walk(rt: HostRuntime) -> Result<(), Fail> {
    let mut cells = [0; 640];
    let mut run = Changes::start(&mut cells, TRIPLES);
    feed_many(&mut run)?;
    assert_eq!(rt; run.count(), 130);
    assert_eq!(rt; told(&run, 0), (Some(1), Some(-64), Some(0)));
    check_told(&rt, &run, 0);
    Ok(())
}

#[test]
fn late_views_of_changes_are_late_views(rt: HostRuntime) -> Result<(), Fail> {
    let mut cells = [0; 640];
    let mut run = Changes::start(&mut cells, TRIPLES);
    feed_many(&mut Late::from_state(&mut run, 62))?;
    assert_eq!(rt; run.count(), 130);
    let mut view = Late::from_state(&mut run, 60);
    check_told(&rt, &view, 60);
    check_told(&rt, &Late::from_state(&mut view, 2), 62);
    Ok(())
}
