// Runs that are closed, and calls as data.
use super::numbered::{PAIRS, SINGLES, close, feed, numbered, offer};
use super::steps::Act::{Close, Feed};
use super::steps::{play, seen};
use rows::Rows;
use runs::{Call, Recorder, carry_out};
use std::test::Fail;

fn marks<R: Recorder>(recorder: &R) -> (bool, bool) {
    let mark = recorder.mark();
    (mark.ended(), mark.endures())
}

#[test]
fn close_wants_a_state_and_an_open_run(rt: HostRuntime) {
    let mut cells = [-3; 5];
    let mut rows = Rows::start(&mut cells, SINGLES);
    let open = [
        (Close, Err(14), (0, None, None, 5)),
        (Feed(0, 1), Err(11), (0, None, None, 5)),
        (Feed(9, 1), Ok(()), (1, Some(9), Some(1), 3)),
        (Feed(1, -2), Ok(()), (2, Some(9), Some(1), 1)),
        (Feed(1, -2), Err(13), (2, Some(9), Some(1), 1)),
    ];
    play(&rt, &mut rows, &open);
    assert_eq!(rt; marks(&rows), (false, false));
    let closed = [
        (Close, Ok(()), (2, Some(9), Some(1), 1)),
        (Close, Err(10), (2, Some(9), Some(1), 1)),
        (Feed(1, -2), Err(10), (2, Some(9), Some(1), 1)),
    ];
    play(&rt, &mut rows, &closed);
    assert_eq!(rt; marks(&rows), (true, true));
    assert_eq!(rt; cells, [9, 1, 1, -2, -3]);
}

fn feeding(stay: i64, values: &[i64]) -> Call<'_> {
    Call::Feed(offer(stay, values))
}

fn carry(rows: &mut Rows<'_>, call: Call<'_>) -> Result<(), u8> {
    numbered(carry_out(rows, call))
}

#[test]
fn calls_as_data_are_carried_out(rt: HostRuntime) {
    let mut cells = [-3; 3];
    let mut rows = Rows::start(&mut cells, SINGLES);
    assert_eq!(rt; carry(&mut rows, Call::Close), Err(14));
    assert_eq!(rt; carry(&mut rows, feeding(10, &[1])), Err(11));
    assert_eq!(rt; carry(&mut rows, feeding(9, &[1])), Ok(()));
    assert_eq!(rt; seen(&rows), (1, Some(9), Some(1), 1));
    assert_eq!(rt; carry(&mut rows, Call::Close), Ok(()));
    assert_eq!(rt; marks(&rows), (true, true));
    assert_eq!(rt; carry(&mut rows, feeding(9, &[1])), Err(10));
    assert_eq!(rt; cells, [9, 1, -3]);
}

#[test]
fn a_list_of_calls_leaves_exactly_the_kept_states(rt: HostRuntime) {
    let calls = [
        Call::Close,
        feeding(9, &[1]),
        feeding(10, &[2]),
        feeding(8, &[-3]),
        feeding(7, &[4]),
        Call::Close,
        feeding(6, &[5]),
    ];
    let mut cells = [-3; 5];
    assert_eq!(rt; Rows::record(&mut cells, SINGLES, &calls), 2);
    assert_eq!(rt; cells, [9, 1, 8, -3, -3]);
}

#[test]
fn a_closed_run_refuses_every_state_for_its_end(rt: HostRuntime) -> Result<(), Fail> {
    let cases: [(i64, &[i64], usize); 6] = [
        (3, &[1, 2], 3),
        (3, &[1], 0),
        (0, &[1, 2], 0),
        (3, &[1_000_000_001, 2], 0),
        (0, &[1_000_000_001], 0),
        (i64::MIN, &[i64::MIN, i64::MIN], 0),
    ];
    // So few cells that a state more would not fit either.
    let mut cells = [-1, -2, -3, -4];
    let mut rows = Rows::start(&mut cells, PAIRS);
    feed(&mut rows, 4, &[50, 60])?;
    close(&mut rows)?;
    for (stay, values, need) in cases {
        assert_eq!(rt; rows.need(offer(stay, values)), need);
        assert_eq!(rt; feed(&mut rows, stay, values), Err(10));
    }
    assert_eq!(rt; seen(&rows), (1, Some(4), Some(50), 1));
    assert_eq!(rt; cells, [4, 50, 60, -4]);
    Ok(())
}
