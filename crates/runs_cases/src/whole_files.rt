// Files read record by record, past refusals and to their ends.
use super::faults::{feed_next, refused, skip_header};
use super::numbered::{SINGLES, close, feed};
use records::Fields;
use rows::Rows;
use runs::{Recorder, Shape};
use std::process::Abort;
use std::test::Fail;
use views::Late;

// Feeds a whole file, and asks once more at its end.
fn feed_whole<R: Recorder>(
    rt: &impl Abort,
    file: &[u8],
    states: usize,
    recorder: &mut R,
) -> Result<(), Fail> {
    let mut fields = Fields::over(file);
    skip_header(&mut fields)?;
    for _ in 0..states {
        assert_eq!(rt; feed_next(&mut fields, recorder), Ok(true));
    }
    assert_eq!(rt; feed_next(&mut fields, recorder), Ok(false));
    assert_eq!(rt; feed_next(&mut fields, recorder), Ok(false));
    Ok(())
}

#[test]
fn a_file_is_fed_to_its_end(rt: HostRuntime) -> Result<(), Fail> {
    let mut cells = [0; 13];
    let mut rows = Rows::start(&mut cells, SINGLES);
    feed_whole(&rt, b"stay,a\r\n1,5\r\n2,-6\r\n", 2, &mut rows)?;
    feed_whole(&rt, b"stay,a\r\n3,7\r\n4,8", 2, &mut rows)?;
    feed_whole(&rt, b"stay,a\r\n", 0, &mut rows)?;
    // Through a view that does not show its first state.
    let mut view = Late::from_state(&mut rows, 5);
    feed_whole(&rt, b"stay,a\r\n5,9\r\n6,10\r\n", 2, &mut view)?;
    assert_eq!(rt; (view.count(), view.stay(0)), (1, Some(6)));
    assert_eq!(rt; cells, [1, 5, 2, -6, 3, 7, 4, 8, 5, 9, 6, 10, 0]);
    Ok(())
}

fn next_stay(fields: &mut Fields<'_>) -> Option<i64> {
    match fields.next_record() {
        Ok(Some(record)) => Some(record.stay()),
        _ => None,
    }
}

#[test]
fn a_refusal_leaves_reader_and_run_where_they_are(rt: HostRuntime) -> Result<(), Fail> {
    let mut fields = Fields::over(b"stay,a\r\n1,5\r\n99,6\r\n2,7\r\n3\r\n");
    skip_header(&mut fields)?;
    let mut cells = [0; 5];
    let mut rows = Rows::start(&mut cells, SINGLES);
    assert_eq!(rt; feed_next(&mut fields, &mut rows), Ok(true));
    assert_eq!(rt; feed_next(&mut fields, &mut rows), refused(1, 11, 13));
    assert_eq!(rt; feed_next(&mut fields, &mut rows), refused(1, 11, 13));
    assert_eq!(rt; rows.count(), 1);
    assert_eq!(rt; next_stay(&mut fields), Some(99));
    assert_eq!(rt; feed_next(&mut fields, &mut rows), Ok(true));
    // The number is the record's, though the run has but two states.
    assert_eq!(rt; feed_next(&mut fields, &mut rows), refused(3, 9, 24));
    assert_eq!(rt; next_stay(&mut fields), Some(3));
    assert_eq!(rt; feed_next(&mut fields, &mut rows), Ok(false));
    assert_eq!(rt; cells, [1, 5, 2, 7, 0]);
    Ok(())
}

#[test]
fn what_a_full_run_refuses_another_run_takes(rt: HostRuntime) -> Result<(), Fail> {
    let mut fields = Fields::over(b"stay,a\r\n1,5\r\n2,6\r\n3,7\r\n");
    skip_header(&mut fields)?;
    let mut cells = [0; 5];
    let mut rows = Rows::start(&mut cells, SINGLES);
    assert_eq!(rt; feed_next(&mut fields, &mut rows), Ok(true));
    assert_eq!(rt; feed_next(&mut fields, &mut rows), Ok(true));
    assert_eq!(rt; feed_next(&mut fields, &mut rows), refused(2, 13, 18));
    let mut other_cells = [0; 2];
    let mut other = Rows::start(&mut other_cells, SINGLES);
    assert_eq!(rt; feed_next(&mut fields, &mut other), Ok(true));
    assert_eq!(rt; cells, [1, 5, 2, 6, 0]);
    assert_eq!(rt; other_cells, [3, 7]);
    Ok(())
}

#[test]
fn a_closed_run_refuses_each_record_that_says_numbers(rt: HostRuntime) -> Result<(), Fail> {
    let mut fields = Fields::over(b"stay,a\r\n1,5\r\n0\r\nx,1\r\n");
    skip_header(&mut fields)?;
    let mut cells = [0; 3];
    let mut rows = Rows::start(&mut cells, SINGLES);
    assert_eq!(rt; feed_next(&mut fields, &mut rows), Ok(true));
    close(&mut rows)?;
    assert_eq!(rt; feed_next(&mut fields, &mut rows), refused(1, 10, 0));
    assert_eq!(rt; next_stay(&mut fields), Some(0));
    assert_eq!(rt; feed_next(&mut fields, &mut rows), refused(2, 8, 16));
    assert_eq!(rt; cells, [1, 5, 0]);
    // At the end of a file there is nothing to refuse.
    let mut cells = [0; 2];
    let mut rows = Rows::start(&mut cells, SINGLES);
    feed(&mut rows, 1, &[1])?;
    close(&mut rows)?;
    feed_whole(&rt, b"stay,a\r\n", 0, &mut rows)
}

#[test]
fn a_record_of_18_fields_is_refused_by_the_widest_run(rt: HostRuntime) -> Result<(), Fail> {
    let file = b"stay,a,b,c,d,e,f,g,h,i,j,k,l,m,n,o,p\r\n\
        1,1,2,3,4,5,6,7,8,9,0,1,2,3,4,5,6\r\n\
        1,1,2,3,4,5,6,7,8,9,0,1,2,3,4,5,6,7\r\n";
    let mut fields = Fields::over(file);
    skip_header(&mut fields)?;
    let shape = Shape {
        width: 16,
        longest: 10,
    };
    let mut cells = [0; 40];
    let mut rows = Rows::start(&mut cells, shape);
    assert_eq!(rt; feed_next(&mut fields, &mut rows), Ok(true));
    assert_eq!(rt; rows.value(0, 15), Some(6));
    assert_eq!(rt; feed_next(&mut fields, &mut rows), refused(1, 9, 73));
    assert_eq!(rt; (rows.count(), rows.free()), (1, 23));
    Ok(())
}
