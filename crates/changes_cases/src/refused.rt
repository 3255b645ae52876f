// States that are refused, and runs that fill up.
use super::told::{PAIRS, feed, offer, told};
use changes::Changes;
use runs::Recorder;
use std::test::Fail;

#[test]
fn an_unlawful_state_needs_no_cell_and_changes_nothing(rt: HostRuntime) -> Result<(), Fail> {
    let cases: [(i64, &[i64], u8); 8] = [
        (3, &[1], 9),
        (3, &[1, 2, 3], 9),
        (0, &[1, 2], 11),
        (11, &[1, 2], 11),
        (3, &[100_000_001, 0], 12),
        (3, &[0, -100_000_001], 12),
        (3, &[i64::MIN, i64::MAX], 12),
        // As 32 bits the values that the run has.
        (3, &[4_294_967_296, 7], 12),
    ];
    let mut cells = [99; 8];
    let mut run = Changes::start(&mut cells, PAIRS);
    feed(&mut run, 3, &[0, 7])?;
    for (stay, values, number) in cases {
        assert_eq!(rt; run.need(offer(stay, values)), 0);
        assert_eq!(rt; feed(&mut run, stay, values), Err(number));
    }
    assert_eq!(rt; (run.count(), run.free()), (1, 5));
    assert_eq!(rt; cells, [3, 1, 113, 99, 99, 99, 99, 99]);
    Ok(())
}

#[test]
fn a_smaller_state_is_taken_after_a_full_one(rt: HostRuntime) -> Result<(), Fail> {
    let mut cells = [99; 8];
    let mut run = Changes::start(&mut cells, PAIRS);
    feed(&mut run, 3, &[0, 7])?;
    feed(&mut run, 4, &[0, 7])?;
    // Two changes need four cells, and three are free.
    assert_eq!(rt; (run.need(offer(5, &[1, 8])), run.free()), (4, 3));
    assert_eq!(rt; feed(&mut run, 5, &[1, 8]), Err(13));
    assert_eq!(rt; feed(&mut run, 6, &[0, -8]), Ok(()));
    assert_eq!(rt; (run.need(offer(7, &[0, -8])), run.free()), (2, 0));
    assert_eq!(rt; feed(&mut run, 7, &[0, -8]), Err(13));
    assert_eq!(rt; told(&run, 2), (Some(6), Some(0), Some(-8)));
    assert_eq!(rt; cells, [3, 1, 113, 4, 0, 6, 1, -127]);
    Ok(())
}
