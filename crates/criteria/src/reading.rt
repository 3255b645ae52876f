// Reading a criterion.
ghost use Rattle.std.specs.Prelude.{◌≡◌, ℕ};
ghost use Rattle.grammar.specs.Meanings.{Columns};
ghost use Rattle.criteria.specs.Criteria.{ReadExactly, after, answer, criterion, lawful_length, lawful_magnitude};
ghost use Rattle.criteria.specs.Told.{written};

use super::fault::CriterionFault;
use super::formula::Formula;
use super::reader::read_text;
use super::scope::{LARGEST_MAGNITUDE, Scope};
use records::{Fields, LARGEST_FILE};

// The most bytes of a text.
const LONGEST_TEXT: usize = 4_096;

// The limit of run files is tested here, before the header's reading tests it.
fn is_lawful_length(text: &[u8], file: &[u8]) -> bool
    ensures { result ≡ lawful_length text.now file.now }
{
    (1..=LONGEST_TEXT).contains(&text.len()) && file.len() <= LARGEST_FILE
}

fn lawful_magnitude(magnitude: i64) -> Option<u64>
    ensures { result ≡ lawful_magnitude magnitude }
{
    u64::try_from(magnitude)
        .ok()
        .filter(|magnitude| (1..=LARGEST_MAGNITUDE).contains(magnitude))
}

// Reads a criterion for the header of a run file and a magnitude into the caller's place, or refuses it and changes nothing.
pub fn read(
    text: &[u8],
    file: &[u8],
    magnitude: i64,
    place: &mut Formula,
) -> Result<(), CriterionFault>
    ensures answer { result ≡ answer (criterion text.now file.now magnitude) }
    ensures after { written place.new ≡ after (criterion text.now file.now magnitude) (written place.old) }
    ensures law { (columns : Columns) (largest : ℕ) → ReadExactly text.now columns largest }
{
    if !is_lawful_length(text, file) {
        return Err(CriterionFault::Length);
    }
    let largest = lawful_magnitude(magnitude).ok_or(CriterionFault::Magnitude)?;
    let mut fields = Fields::over(file);
    let header = fields.header()?;
    *place = read_text(
        text,
        &Scope {
            header,
            magnitude: largest,
        },
    )?;
    Ok(())
}
