// The shapes that a run can have, and how it starts.
use super::numbered::numbered;
use rows::Rows;
use runs::{Recorder, Shape};

#[test]
fn a_shape_is_refused_for_its_width_first(rt: HostRuntime) {
    let cases = [
        (1, 1, Ok(())),
        (16, 100_000, Ok(())),
        (0, 1, Err(9)),
        (17, 100_000, Err(9)),
        (usize::MAX, 5, Err(9)),
        (1, 0, Err(11)),
        (16, 100_001, Err(11)),
        (3, u64::MAX, Err(11)),
        (0, 0, Err(9)),
        (17, 100_001, Err(9)),
    ];
    for (width, longest, answer) in cases {
        assert_eq!(rt;
            numbered(Shape { width, longest }.check()),
            answer,
            "width {width}, longest stay {longest}"
        );
    }
}

fn started(width: usize, longest: u64) -> (usize, u64) {
    let mut cells = [0; 3];
    let shape = Rows::start(&mut cells, Shape { width, longest }).shape();
    (shape.width, shape.longest)
}

#[test]
fn start_takes_the_nearest_lawful_shape(rt: HostRuntime) {
    let cases = [
        ((1, 1), (1, 1)),
        ((16, 100_000), (16, 100_000)),
        ((7, 300), (7, 300)),
        ((0, 0), (1, 1)),
        ((17, 100_001), (16, 100_000)),
        ((0, u64::MAX), (1, 100_000)),
        ((usize::MAX, 0), (16, 1)),
    ];
    for ((width, longest), nearest) in cases {
        assert_eq!(rt; started(width, longest), nearest);
    }
}

#[test]
fn start_makes_an_open_run_and_changes_no_cell(rt: HostRuntime) {
    let mut cells = [7, -8, 9, -10, 11];
    let rows = Rows::start(
        &mut cells,
        Shape {
            width: 0,
            longest: 9,
        },
    );
    assert_eq!(rt; rows.count(), 0);
    assert_eq!(rt; rows.mark().ended(), false);
    assert_eq!(rt; rows.mark().endures(), false);
    assert_eq!(rt; rows.free(), 5);
    assert_eq!(rt; rows.stay(0), None);
    assert_eq!(rt; rows.value(0, 0), None);
    assert_eq!(rt; cells, [7, -8, 9, -10, 11]);
}
