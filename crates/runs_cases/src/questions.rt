// Questions, past the end too.
use super::numbered::{PAIRS, feed};
use rows::Rows;
use runs::Recorder;
use std::process::Abort;
use std::test::Fail;
use views::Late;

// So many rows of three cells are 2^64 + 2 of them: the product would wrap to 2.
const WRAPPING: usize = 6_148_914_691_236_517_206;

fn check_stays<R: Recorder>(rt: &impl Abort, recorder: &R) {
    let cases = [
        (0, Some(3)),
        (1, Some(10)),
        (2, None),
        (WRAPPING, None),
        (usize::MAX, None),
    ];
    for (i, stay) in cases {
        assert_eq!(rt; recorder.stay(i), stay, "state {i}");
    }
}

fn check_values<R: Recorder>(rt: &impl Abort, recorder: &R) {
    let cases = [
        (0, 0, Some(10)),
        (0, 1, Some(-20)),
        // The cell behind the row is the next stay.
        (0, 2, None),
        (0, 3, None),
        (0, usize::MAX, None),
        (1, 0, Some(1_000_000_000)),
        (1, 1, Some(-1_000_000_000)),
        (1, 2, None),
        (2, 0, None),
        (WRAPPING, 0, None),
        (usize::MAX, 0, None),
        (usize::MAX, usize::MAX, None),
    ];
    for (i, v, value) in cases {
        assert_eq!(rt; recorder.value(i, v), value, "state {i}, variable {v}");
    }
}

// The largest magnitude as a constant and as an answer.
fn largest<R: Recorder>(_: &R) -> (i64, i64) {
    (R::LARGEST, R::largest_magnitude())
}

fn check_answers<R: Recorder>(rt: &impl Abort, recorder: &R) {
    assert_eq!(rt; largest(recorder), (1_000_000_000, 1_000_000_000));
    assert_eq!(rt; recorder.shape().width, 2);
    assert_eq!(rt; recorder.shape().longest, 10);
    assert_eq!(rt; (recorder.count(), recorder.free()), (2, 3));
    check_stays(rt, recorder);
    check_values(rt, recorder);
}

#[test]
fn a_run_a_lent_run_and_a_view_from_its_start_answer_alike(rt: HostRuntime) -> Result<(), Fail> {
    // The third row has a stay and values, but no state is kept there.
    let mut cells = [0, 0, 0, 0, 0, 0, 5, 6, 7];
    let mut rows = Rows::start(&mut cells, PAIRS);
    feed(&mut rows, 3, &[10, -20])?;
    feed(&mut rows, 10, &[1_000_000_000, -1_000_000_000])?;
    check_answers(&rt, &rows);
    check_answers(&rt, &&mut rows);
    check_answers(&rt, &Late::from_state(&mut rows, 0));
    Ok(())
}
