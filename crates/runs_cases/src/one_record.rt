// One record of a file, fed or refused.
use super::faults::{Fault, feed_next, refused, skip_header};
use super::nocells::NoCells;
use super::numbered::PAIRS;
use records::Fields;
use rows::Rows;
use std::process::Abort;
use std::test::Fail;

// Feeds the first record of a file to a run of pairs: the answer, and the cells then.
fn first_fed(file: &[u8]) -> Result<(Result<bool, Fault>, [i32; 4]), Fail> {
    let mut fields = Fields::over(file);
    skip_header(&mut fields)?;
    let mut cells = [-1, -2, -3, -4];
    let mut rows = Rows::start(&mut cells, PAIRS);
    let answer = feed_next(&mut fields, &mut rows);
    Ok((answer, cells))
}

#[test]
fn a_record_is_fed_as_its_numbers_say(rt: HostRuntime) -> Result<(), Fail> {
    let cases: [(&[u8], [i32; 4]); 5] = [
        (b"stay,a,b\r\n3,1,2", [3, 1, 2, -4]),
        (b"stay,a,b\r\n3,1,2\r\n", [3, 1, 2, -4]),
        (b"stay,a,b\r\n\"3\",\"-1\",\"+2\"", [3, -1, 2, -4]),
        (b"stay,a,b\r\n+0010,-0,00", [10, 0, 0, -4]),
        (
            b"stay,a,b\r\n1,1000000000,-1000000000",
            [1, 1_000_000_000, -1_000_000_000, -4],
        ),
    ];
    for (file, cells) in cases {
        assert_eq!(rt; first_fed(file)?, (Ok(true), cells));
    }
    Ok(())
}

fn check_refused(rt: &impl Abort, cases: &[(&[u8], u8, usize)]) -> Result<(), Fail> {
    for &(file, number, place) in cases {
        assert_eq!(rt;
            first_fed(file)?,
            (refused(0, number, place), [-1, -2, -3, -4])
        );
    }
    Ok(())
}

// The first record begins at byte 10.
#[test]
fn a_record_that_says_no_numbers_is_refused(rt: HostRuntime) -> Result<(), Fail> {
    check_refused(
        &rt,
        &[
            (b"stay,a,b\r\nx,1,2", 8, 10),
            (b"stay,a,b\r\n3,1.5,2", 8, 12),
            (b"stay,a,b\r\n3,1 ,2", 8, 12),
            (b"stay,a,b\r\n3,1,\"2", 8, 14),
            (b"stay,a,b\r\n3,\"x\",2", 8, 12),
            (b"stay,a,b\r\n3,1,2\n", 8, 14),
            (b"stay,a,b\r\n\r\n", 8, 10),
            (b"stay,a,b\r\n1000000001,1,2", 3, 10),
            (b"stay,a,b\r\n3,-1000000001,1000000001", 3, 12),
            (b"stay,a,b\r\n3,1,\"1000000001\"", 3, 14),
            // A field that is no numeral comes before a number beyond the limit, and that before the run's refusals.
            (b"stay,a,b\r\n1000000001,x,2", 8, 21),
            (b"stay,a,b\r\n0,x", 8, 12),
            (b"stay,a,b\r\n0,1000000001", 3, 12),
        ],
    )
}

#[test]
fn a_record_that_is_no_state_is_refused(rt: HostRuntime) -> Result<(), Fail> {
    check_refused(
        &rt,
        &[
            (b"stay,a,b\r\n3", 9, 10),
            (b"stay,a,b\r\n3,1", 9, 10),
            (b"stay,a,b\r\n3,1,2,4", 9, 10),
            (b"stay,a,b\r\n0,1", 9, 10),
            (b"stay,a,b\r\n0,1,2", 11, 10),
            (b"stay,a,b\r\n-1,1,2", 11, 10),
            (b"stay,a,b\r\n11,1,2", 11, 10),
            (b"stay,a,b\r\n\"11\",1,2", 11, 10),
            (b"stay,a,b\r\n3,1,2,4,5,6,7,8,9,1,2,3,4,5,6,7,8,9", 9, 10),
            (b"stay,a,b\r\n3,1,2,4,5,6,7,8,9,1,2,3,4,5,6,7,8,x", 8, 44),
            (
                b"stay,a,b\r\n3,1,2,4,5,6,7,8,9,1,2,3,4,5,6,7,8,1000000001",
                3,
                44,
            ),
        ],
    )
}

#[test]
fn a_value_beyond_the_recorder_is_refused_at_its_field(rt: HostRuntime) -> Result<(), Fail> {
    let cases: [(&[u8], u8, usize); 7] = [
        (b"stay,a,b\r\n3,6,5", 12, 12),
        (b"stay,a,b\r\n3,5,6", 12, 14),
        (b"stay,a,b\r\n3,-6,-7", 12, 12),
        (b"stay,a,b\r\n3,-5,\"-6\"", 12, 15),
        (b"stay,a,b\r\n0,6,6", 11, 10),
        (b"stay,a,b\r\n3,5,-5", 13, 10),
        (b"stay,a,b\r\n3,6,1000000001", 3, 14),
    ];
    for (file, number, place) in cases {
        let mut fields = Fields::over(file);
        skip_header(&mut fields)?;
        let answer = feed_next(&mut fields, &mut NoCells::start(PAIRS));
        assert_eq!(rt; answer, refused(0, number, place));
    }
    Ok(())
}
