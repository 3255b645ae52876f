// The statement of what a run file holds, in lines that CRLF ends.
ghost use Rattle.std.specs.Prelude.{◌≡◌, ◌++◌, length, map, IfOk, string_bytes, OnOk};
ghost use Rattle.survey.specs.Statements.{column_names, field_text, held_lines, range_end, range_line, range_lines, refused_line, statement_by, statement_of, sum_lines};
ghost use Rattle.survey.specs.Surveys.{survey_of};
ghost use Rattle.survey.specs.Told.{surveyed};

use super::range::Range;
use super::summary::Summary;
use super::whole::Survey;
use records::Refusal;
use runs::Shape;
use std::alloc::{AllocError, Global};

// The cells that a run file is kept in.
const CELLS: usize = 16_384;

// The lines so far, and the heap that their texts come from.
#[derive(Drop)]
struct Lines {
    heap: Global,
    bytes: Vec<u8>,
}

impl Lines {
    // A name as a field of a record: in quotes where a comma stands in it. It has no quote.
    fn push_name(&mut self, name: &[u8]) -> Result<(), AllocError>
        ensures { OnOk result (self.new.bytes.items ≡ self.old.bytes.items ++ field_text name.now) }
    {
        if name.contains(&b',') {
            self.bytes.push(b'"')?;
            self.bytes.extend_from_slice(name)?;
            self.bytes.push(b'"')?;
            Ok(())
        } else {
            self.bytes.extend_from_slice(name)
        }
    }

    fn push_columns(&mut self, names: &[&[u8]]) -> Result<(), AllocError>
        ensures { OnOk result (self.new.bytes.items ≡ self.old.bytes.items ++ column_names (map (λ x. x.now) names.now)) }
    {
        for name in names {
            self.bytes.push(b',')?;
            self.push_name(name)?;
        }
        Ok(())
    }

    // The states, their ticks, and the cells that are left.
    fn push_sums(&mut self, survey: &Survey) -> Result<(), AllocError>
        ensures { OnOk result (self.new.bytes.items ≡ self.old.bytes.items ++ sum_lines survey.now.summary survey.now.free) }
    {
        let Summary { states, ticks, .. } = survey.summary;
        let free = survey.free;
        let longest = Shape::LONGEST;
        let sums = format!(in self.heap;
            "\r\nstates,{states}\r\nticks,{ticks}\r\nrows,{free},{CELLS},{longest}\r\n"
        )?;
        self.bytes.extend_from_slice(sums.as_bytes())
    }

    // A column's name, and the range of its values, if it has any.
    fn push_range(&mut self, name: &[u8], range: Option<Range>) -> Result<(), AllocError>
        ensures { OnOk result (self.new.bytes.items ≡ self.old.bytes.items ++ range_line name.now range) }
    {
        self.push_name(name)?;
        match range {
            Some(range) => {
                let text = format!(in self.heap; ",{range}\r\n")?;
                self.bytes.extend_from_slice(text.as_bytes())
            }
            None => self.bytes.extend_from_slice(b",,\r\n"),
        }
    }

    fn push_ranges(&mut self, names: &[&[u8]], ranges: &[Option<Range>]) -> Result<(), AllocError>
        ensures { OnOk result (self.new.bytes.items ≡ self.old.bytes.items ++ range_lines (map (λ x. x.now) names.now) ranges.now) }
    {
        for (name, range) in names.iter().zip(ranges) {
            self.push_range(name, *range)?;
        }
        Ok(())
    }
}

fn held(heap: Global, survey: &Survey) -> Result<Vec<u8>, AllocError>
    ensures { IfOk result (λ v. v.items ≡ held_lines (surveyed survey.now)) }
{
    let mut lines = Lines {
        heap,
        bytes: Vec::new(heap),
    };
    let names = survey.header.names();
    lines.bytes.extend_from_slice(b"columns")?;
    lines.push_columns(names)?;
    lines.push_sums(survey)?;
    lines.push_ranges(names, &survey.summary.ranges)?;
    Ok(lines.bytes)
}

fn refused(heap: Global, refusal: Refusal) -> Result<Vec<u8>, AllocError>
    ensures { IfOk result (λ v. v.items ≡ refused_line refusal) }
{
    Ok(format!(in heap; "refused,{refusal}\r\n")?.into_bytes())
}

// The statement of a run file that is kept in these cells.
fn statement_in(heap: Global, bytes: &[u8], cells: &mut [i32]) -> Result<Vec<u8>, AllocError>
    ensures { IfOk result (λ v. v.items ≡ statement_by (survey_of (length cells.old) bytes.now)) }
{
    match Survey::of(bytes, cells) {
        Ok(survey) => held(heap, &survey),
        Err(fault) => refused(heap, fault.into()),
    }
}

// What a run file holds, or its first refusal.
pub fn statement(heap: Global, bytes: &[u8]) -> Result<Vec<u8>, AllocError>
    ensures { IfOk result (λ v. v.items ≡ statement_of bytes.now) }
{
    let mut cells = vec![in heap; 0; CELLS]?;
    statement_in(heap, bytes, cells.as_mut_slice())
}
