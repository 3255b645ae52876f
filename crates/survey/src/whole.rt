// A whole run file, fed into rows.
ghost use Rattle.std.specs.Prelude.{◌≡◌, length};
ghost use Rattle.records.specs.Told.{names};
ghost use Rattle.survey.specs.Surveys.{file_shape, survey_of};
ghost use Rattle.survey.specs.Told.{told_survey};

use super::kept::feed_records;
use super::summary::Summary;
use records::{Fields, Header};
use rows::Rows;
use runfiles::RunFault;
use runs::{Recorder, Shape};

// A variable for each column, and stays of any lawful length.
fn shape_of(header: &Header) -> Shape
    ensures { result ≡ file_shape (names header.now) }
{
    Shape {
        width: header.width(),
        longest: Shape::LONGEST,
    }
}

// The names of the columns, the sums over the states, and the cells that are left.
#[derive(Clone, Copy)]
pub struct Survey<'a> {
    pub header: Header<'a>,
    pub summary: Summary,
    pub free: usize,
}

impl<'a> Survey<'a> {
    // What a run file holds, kept in rows of these cells; or its first fault.
    pub fn of(bytes: &'a [u8], cells: &mut [i32]) -> Result<Survey<'a>, RunFault>
        ensures { told_survey result ≡ survey_of (length cells.old) bytes.now }
    {
        let mut fields = Fields::over(bytes);
        let header = fields.header()?;
        let mut rows = Rows::start(cells, shape_of(&header));
        // Each record but the last has a line end behind it, so there are at most as many others as bytes.
        feed_records(&mut fields, &mut rows, bytes.len() + 1)?;
        Ok(Survey {
            header,
            summary: Summary::of(&rows),
            free: rows.free(),
        })
    }
}
