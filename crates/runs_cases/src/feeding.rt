// States that are taken and refused, and the cells then.
use super::numbered::{PAIRS, feed, offer};
use rows::Rows;
use runs::Recorder;
use std::test::Fail;

// What a feed answers and leaves, and the need that was told before it.
#[derive(Clone, Copy, PartialEq, Eq, Debug)]
struct Outcome {
    answer: Result<(), u8>,
    need: usize,
    count: usize,
    free: usize,
    cells: [i32; 7],
}

// Offers a state to a run with one state and four free cells.
fn offered(stay: i64, values: &[i64]) -> Result<Outcome, Fail> {
    let mut cells = [-1, -2, -3, -4, -5, -6, -7];
    let mut rows = Rows::start(&mut cells, PAIRS);
    feed(&mut rows, 4, &[50, 60])?;
    let need = rows.need(offer(stay, values));
    let answer = feed(&mut rows, stay, values);
    let count = rows.count();
    let free = rows.free();
    Ok(Outcome {
        answer,
        need,
        count,
        free,
        cells,
    })
}

#[test]
fn a_lawful_state_takes_a_row(rt: HostRuntime) -> Result<(), Fail> {
    let cases = [
        (1, [0, 0]),
        (10, [7, -7]),
        (2, [1_000_000_000, -1_000_000_000]),
    ];
    for (stay, [first, second]) in cases {
        let taken = Outcome {
            answer: Ok(()),
            need: 3,
            count: 2,
            free: 1,
            cells: [4, 50, 60, stay, first, second, -7],
        };
        let values = [i64::from(first), i64::from(second)];
        assert_eq!(rt; offered(i64::from(stay), &values)?, taken);
    }
    Ok(())
}

#[test]
fn an_unlawful_state_is_refused_and_changes_nothing(rt: HostRuntime) -> Result<(), Fail> {
    let cases: [(i64, &[i64], u8); 20] = [
        (3, &[], 9),
        (3, &[1], 9),
        (3, &[1, 2, 3], 9),
        (0, &[1, 2], 11),
        (-1, &[1, 2], 11),
        (11, &[1, 2], 11),
        (i64::MIN, &[1, 2], 11),
        (i64::MAX, &[1, 2], 11),
        // As 32 bits a stay of 1.
        (4_294_967_297, &[1, 2], 11),
        (3, &[1_000_000_001, 0], 12),
        (3, &[0, 1_000_000_001], 12),
        (3, &[-1_000_000_001, 0], 12),
        (3, &[0, -1_000_000_001], 12),
        (3, &[i64::MIN, 0], 12),
        (3, &[0, i64::MAX], 12),
        // As 32 bits a value of 0.
        (3, &[4_294_967_296, 0], 12),
        (0, &[1_000_000_001], 9),
        (11, &[], 9),
        (0, &[1_000_000_001, 0], 11),
        (i64::MIN, &[i64::MIN, i64::MIN], 11),
    ];
    for (stay, values, number) in cases {
        let refused = Outcome {
            answer: Err(number),
            need: 0,
            count: 1,
            free: 4,
            cells: [4, 50, 60, -4, -5, -6, -7],
        };
        assert_eq!(rt; offered(stay, values)?, refused, "stay {stay}");
    }
    Ok(())
}
