// Runs that fill up.
use super::numbered::{PAIRS, SINGLES, feed, offer};
use rows::Rows;
use runs::{Recorder, Shape};
use std::process::Abort;
use std::test::Fail;

// Offers four states: how many are kept, how many cells are free then, and the last answer.
fn filled(cells: &mut [i32]) -> (usize, usize, Result<(), u8>) {
    let mut rows = Rows::start(cells, PAIRS);
    let mut last = Ok(());
    for _ in 0..4 {
        last = feed(&mut rows, 7, &[8, -9]);
    }
    (rows.count(), rows.free(), last)
}

#[test]
fn cells_fill_to_the_last_one(rt: HostRuntime) {
    assert_eq!(rt; filled(&mut []), (0, 0, Err(13)));
    assert_eq!(rt; filled(&mut [0; 2]), (0, 2, Err(13)));
    assert_eq!(rt; filled(&mut [0; 3]), (1, 0, Err(13)));
    assert_eq!(rt; filled(&mut [0; 6]), (2, 0, Err(13)));
    assert_eq!(rt; filled(&mut [0; 11]), (3, 2, Err(13)));
    assert_eq!(rt; filled(&mut [0; 12]), (4, 0, Ok(())));
    assert_eq!(rt; filled(&mut [0; 13]), (4, 1, Ok(())));
}

#[test]
fn rows_stand_side_by_side(rt: HostRuntime) {
    let mut cells = [1, 2, 3, 4, 5];
    assert_eq!(rt; filled(&mut cells), (1, 2, Err(13)));
    assert_eq!(rt; cells, [7, 8, -9, 4, 5]);
    let mut cells = [1, 2, 3, 4, 5, 6, 7, 8];
    assert_eq!(rt; filled(&mut cells), (2, 2, Err(13)));
    assert_eq!(rt; cells, [7, 8, -9, 7, 8, -9, 7, 8]);
}

#[test]
fn a_full_run_refuses_for_room_last(rt: HostRuntime) -> Result<(), Fail> {
    let cases: [(i64, &[i64], usize, u8); 6] = [
        (3, &[1, 2], 3, 13),
        (10, &[1_000_000_000, -1_000_000_000], 3, 13),
        (3, &[1], 0, 9),
        (0, &[1, 2], 0, 11),
        (3, &[1, 1_000_000_001], 0, 12),
        (11, &[1, 2, i64::MIN], 0, 9),
    ];
    let mut cells = [-1, -2, -3, -4, -5];
    let mut rows = Rows::start(&mut cells, PAIRS);
    feed(&mut rows, 4, &[50, 60])?;
    for (stay, values, need, number) in cases {
        assert_eq!(rt; rows.need(offer(stay, values)), need);
        assert_eq!(rt; feed(&mut rows, stay, values), Err(number));
        assert_eq!(rt; (rows.count(), rows.free()), (1, 2));
    }
    assert_eq!(rt; cells, [4, 50, 60, -4, -5]);
    Ok(())
}

// The values of a widest state.
const WIDE: [i64; 16] = [
    11, 12, 13, 14, 15, 16, 17, 18, 19, 20, 21, 22, 23, 24, 25, 26,
];

// The cells that hold it, and two more.
const WIDE_ROW: [i32; 19] = [
    100_000, 11, 12, 13, 14, 15, 16, 17, 18, 19, 20, 21, 22, 23, 24, 25, 26, 99, 99,
];

#[test]
fn the_widest_state_takes_17_cells(rt: HostRuntime) {
    let shape = Shape {
        width: 16,
        longest: 100_000,
    };
    let mut cells = [99; 19];
    let mut rows = Rows::start(&mut cells, shape);
    assert_eq!(rt; feed(&mut rows, 1, &WIDE[0..15]), Err(9));
    assert_eq!(rt; feed(&mut rows, 1, &[0; 17]), Err(9));
    assert_eq!(rt; feed(&mut rows, 100_001, &WIDE), Err(11));
    assert_eq!(rt; rows.need(offer(100_000, &WIDE)), 17);
    assert_eq!(rt; feed(&mut rows, 100_000, &WIDE), Ok(()));
    assert_eq!(rt; feed(&mut rows, 1, &WIDE), Err(13));
    assert_eq!(rt; rows.free(), 2);
    assert_eq!(rt; (rows.value(0, 15), rows.value(0, 16)), (Some(26), None));
    assert_eq!(rt; cells, WIDE_ROW);
}

// Offers states to a run that keeps 4,096 of them.
fn check_brimful<R: Recorder>(rt: &impl Abort, recorder: &mut R) {
    assert_eq!(rt; (recorder.count(), recorder.free()), (4_096, 0));
    assert_eq!(rt; recorder.need(offer(9, &[-6])), 2);
    assert_eq!(rt; feed(recorder, 9, &[-6]), Err(13));
    assert_eq!(rt; feed(recorder, 10, &[-6]), Err(11));
    assert_eq!(rt; feed(recorder, 9, &[]), Err(9));
    assert_eq!(rt; (recorder.count(), recorder.free()), (4_096, 0));
    assert_eq!(rt;
        (recorder.stay(4_094), recorder.value(4_094, 0)),
        (Some(1), Some(5))
    );
    assert_eq!(rt;
        (recorder.stay(4_095), recorder.value(4_095, 0)),
        (Some(9), Some(-6))
    );
    assert_eq!(rt;
        (recorder.stay(4_096), recorder.value(4_096, 0)),
        (None, None)
    );
}

#[test]
fn a_run_keeps_4096_states_though_cells_remain(rt: HostRuntime) -> Result<(), Fail> {
    let mut cells = vec![in rt.alloc(); -7; 16_384]?;
    let mut rows = Rows::start(cells.as_mut_slice(), SINGLES);
    for _ in 0..4_095 {
        feed(&mut rows, 1, &[5])?;
    }
    assert_eq!(rt; (rows.count(), rows.free()), (4_095, 8_194));
    feed(&mut rows, 9, &[-6])?;
    check_brimful(&rt, &mut rows);
    assert_eq!(rt; cells.get(8_191).copied(), Some(-6));
    assert_eq!(rt; cells.get(8_192).copied(), Some(-7));
    assert_eq!(rt; cells.get(16_383).copied(), Some(-7));
    Ok(())
}
