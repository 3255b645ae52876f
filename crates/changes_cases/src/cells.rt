// The cells that states fill, and how they are read back.
use super::told::{PAIRS, feed, offer, told};
use changes::Changes;
use runs::{Call, Recorder, Shape};
use std::process::Abort;
use std::test::Fail;

fn check_told<R: Recorder>(rt: &impl Abort, recorder: &R) {
    assert_eq!(rt; told(recorder, 0), (Some(3), Some(0), Some(7)));
    assert_eq!(rt; told(recorder, 1), (Some(10), Some(-1), Some(7)));
    assert_eq!(rt; told(recorder, 2), (Some(1), Some(-1), Some(-7)));
    assert_eq!(rt; told(recorder, 3), (Some(2), Some(-1), Some(-7)));
    assert_eq!(rt; told(recorder, 4), (Some(5), Some(4), Some(0)));
    assert_eq!(rt; told(recorder, 5), (None, None, None));
    assert_eq!(rt;
        (recorder.value(4, 2), recorder.stay(usize::MAX)),
        (None, None)
    );
}

#[test]
fn a_state_tells_what_changes(rt: HostRuntime) -> Result<(), Fail> {
    let mut cells = [99; 16];
    let mut run = Changes::start(&mut cells, PAIRS);
    feed(&mut run, 3, &[0, 7])?;
    feed(&mut run, 10, &[-1, 7])?;
    feed(&mut run, 1, &[-1, -7])?;
    feed(&mut run, 2, &[-1, -7])?;
    feed(&mut run, 5, &[4, 0])?;
    assert_eq!(rt; (run.count(), run.free()), (5, 1));
    check_told(&rt, &run);
    // 16 times the value and the variable: -16 is -1 in variable 0, -111 is -7 in variable 1.
    assert_eq!(rt;
        cells,
        [3, 1, 113, 10, 1, -16, 1, 1, -111, 2, 0, 5, 2, 64, 1, 99]
    );
    Ok(())
}

#[test]
fn the_last_variable_is_told_to_its_largest_magnitude(rt: HostRuntime) -> Result<(), Fail> {
    let shape = Shape {
        width: 16,
        longest: 9,
    };
    let mut cells = [0; 7];
    let mut run = Changes::start(&mut cells, shape);
    let mut values = [0; 16];
    values[0] = 100_000_000;
    values[15] = -100_000_000;
    assert_eq!(rt; run.need(offer(9, &values)), 4);
    feed(&mut run, 9, &values)?;
    values[15] = -1;
    feed(&mut run, 8, &values)?;
    assert_eq!(rt;
        (run.value(0, 0), run.value(0, 15)),
        (Some(100_000_000), Some(-100_000_000))
    );
    assert_eq!(rt;
        (run.value(1, 0), run.value(1, 15)),
        (Some(100_000_000), Some(-1))
    );
    assert_eq!(rt; (run.value(1, 14), run.value(1, 16)), (Some(0), None));
    assert_eq!(rt; cells, [9, 2, 1_600_000_000, -1_599_999_985, 8, 1, -1]);
    Ok(())
}

#[test]
fn the_largest_magnitude_is_a_constant_and_an_answer(rt: HostRuntime) {
    assert_eq!(rt; Changes::LARGEST, 100_000_000);
    assert_eq!(rt; Changes::largest_magnitude(), Changes::LARGEST);
}

#[test]
fn calls_are_recorded_in_the_callers_cells(rt: HostRuntime) {
    let calls = [
        Call::Close,
        Call::Feed(offer(3, &[0, 7])),
        Call::Feed(offer(0, &[0, 8])),
        Call::Feed(offer(4, &[9, 9])),
        Call::Feed(offer(4, &[0, 7])),
        Call::Close,
        Call::Feed(offer(1, &[0, 7])),
    ];
    let mut cells = [-5; 6];
    assert_eq!(rt; Changes::record(&mut cells, PAIRS, &calls), 2);
    assert_eq!(rt; cells, [3, 1, 113, 4, 0, -5]);
}
