// Late views of a run.
use super::numbered::{SINGLES, feed, offer};
use super::steps::Act::{Close, Feed};
use super::steps::{Seen, feed_three, play_from, seen};
use rows::Rows;
use runs::Recorder;
use std::process::Abort;
use std::test::Fail;
use views::Late;

// What a view passes on from below, and what it lacks wherever it begins.
fn check_passed_on<R: Recorder>(rt: &impl Abort, view: &R) {
    assert_eq!(rt; (view.shape().width, view.shape().longest), (1, 9));
    assert_eq!(rt; (view.mark().ended(), view.free()), (false, 6));
    assert_eq!(rt;
        (view.need(offer(9, &[1])), view.need(offer(10, &[1]))),
        (2, 0)
    );
    assert_eq!(rt;
        (view.need(offer(9, &[])), view.need(offer(9, &[i64::MIN]))),
        (0, 0)
    );
    assert_eq!(rt; (view.stay(3), view.value(0, 1)), (None, None));
    assert_eq!(rt; view.stay(usize::MAX), None);
    assert_eq!(rt; view.value(usize::MAX, usize::MAX), None);
}

fn seen_from<R: Recorder>(rt: &impl Abort, below: &mut R, k: usize) -> Seen {
    let view = Late::from_state(below, k);
    check_passed_on(rt, &view);
    seen(&view)
}

#[test]
fn a_view_lacks_the_first_states(rt: HostRuntime) -> Result<(), Fail> {
    let cases = [
        (0, (3, Some(1), Some(10), 6)),
        (1, (2, Some(2), Some(20), 6)),
        (2, (1, Some(3), Some(30), 6)),
        (3, (0, None, None, 6)),
        (4, (0, None, None, 6)),
        (5_000, (0, None, None, 6)),
        (usize::MAX, (0, None, None, 6)),
    ];
    let mut cells = [0; 12];
    let mut rows = Rows::start(&mut cells, SINGLES);
    feed_three(&mut rows)?;
    for (k, expected) in cases {
        assert_eq!(rt; seen_from(&rt, &mut rows, k), expected, "from state {k}");
    }
    Ok(())
}

#[test]
fn coming_states_pass_below_while_the_lead_falls(rt: HostRuntime) -> Result<(), Fail> {
    let mut cells = [0; 13];
    let mut rows = Rows::start(&mut cells, SINGLES);
    feed_three(&mut rows)?;
    let steps = [
        (Feed(4, 40), Ok(()), (0, None, None, 5)),
        // A refused state does not count against the lead.
        (Feed(10, 0), Err(11), (0, None, None, 5)),
        (Feed(9, i64::MIN), Err(12), (0, None, None, 5)),
        (Close, Err(14), (0, None, None, 5)),
        (Feed(5, 50), Ok(()), (0, None, None, 3)),
        (Feed(6, 60), Ok(()), (1, Some(6), Some(60), 1)),
        (Feed(7, 70), Err(13), (1, Some(6), Some(60), 1)),
    ];
    play_from(&rt, &mut rows, 5, &steps);
    assert_eq!(rt; (rows.count(), rows.stay(3)), (6, Some(4)));
    assert_eq!(rt; cells, [1, 10, 2, 20, 3, 30, 4, 40, 5, 50, 6, 60, 0]);
    Ok(())
}

#[test]
fn a_full_run_refuses_though_the_lead_is_above_0(rt: HostRuntime) -> Result<(), Fail> {
    let mut cells = [-9; 9];
    let mut rows = Rows::start(&mut cells, SINGLES);
    feed_three(&mut rows)?;
    let steps = [
        (Feed(4, 40), Ok(()), (0, None, None, 1)),
        (Feed(5, 50), Err(13), (0, None, None, 1)),
        (Close, Err(14), (0, None, None, 1)),
    ];
    play_from(&rt, &mut rows, 6, &steps);
    assert_eq!(rt; (rows.count(), rows.mark().ended()), (4, false));
    assert_eq!(rt; cells, [1, 10, 2, 20, 3, 30, 4, 40, -9]);
    Ok(())
}

#[test]
fn closing_a_view_closes_the_run_below(rt: HostRuntime) -> Result<(), Fail> {
    let mut cells = [0; 12];
    let mut rows = Rows::start(&mut cells, SINGLES);
    play_from(&rt, &mut rows, 0, &[(Close, Err(14), (0, None, None, 12))]);
    feed_three(&mut rows)?;
    play_from(&rt, &mut rows, 3, &[(Close, Err(14), (0, None, None, 6))]);
    assert_eq!(rt; rows.mark().ended(), false);
    let one = (1, Some(3), Some(30), 6);
    let steps = [
        (Close, Ok(()), one),
        (Close, Err(10), one),
        (Feed(10, 0), Err(10), one),
    ];
    play_from(&rt, &mut rows, 2, &steps);
    assert_eq!(rt; (rows.count(), rows.mark().ended()), (3, true));
    // The end is told before the lack of states.
    play_from(&rt, &mut rows, 3, &[(Close, Err(10), (0, None, None, 6))]);
    Ok(())
}

#[test]
fn a_view_from_4096_on_has_no_states(rt: HostRuntime) -> Result<(), Fail> {
    let mut cells = vec![in rt.alloc(); 0; 8_194]?;
    let mut rows = Rows::start(cells.as_mut_slice(), SINGLES);
    for _ in 0..4_095 {
        feed(&mut rows, 1, &[5])?;
    }
    feed(&mut rows, 2, &[6])?;
    let last = (1, Some(2), Some(6), 0);
    play_from(&rt, &mut rows, 4_095, &[(Feed(2, 6), Err(13), last)]);
    for k in [4_096, 4_097, 5_000] {
        let steps = [
            (Feed(2, 6), Err(13), (0, None, None, 0)),
            (Close, Err(14), (0, None, None, 0)),
        ];
        play_from(&rt, &mut rows, k, &steps);
    }
    Ok(())
}
