// Which fields may stand in a header.
ghost use Rattle.std.specs.Prelude.{◌≡◌, map};
ghost use Rattle.records.specs.Headers.{bad_title, lawful_name, may_stand, name_byte, name_bytes, names_by};
ghost use Rattle.records.specs.Told.{firsts, lent, told_header};

use super::super::fault::RecordFault;
use super::super::kept::{KEPT, Kept};
use super::Header;

// The longest name, in bytes.
const LONGEST_NAME: usize = 64;

// The fewest fields of a header, `stay` among them. The most are those that are kept.
const FEWEST_FIELDS: usize = 2;

fn is_name_byte(b: u8) -> bool
    ensures { result ≡ name_byte b }
{
    matches!(b, 0x20..=0x7E) && b != b'{' && b != b'}'
}

fn all_name_bytes(name: &[u8]) -> bool
    ensures { result ≡ name_bytes name.now }
{
    name.iter().all(|b| is_name_byte(*b))
}

fn is_lawful_name(name: &[u8]) -> bool
    ensures { result ≡ lawful_name name.now }
{
    (1..=LONGEST_NAME).contains(&name.len()) && all_name_bytes(name)
}

// Whether a field may stand behind these.
fn may_stand(before: &[&[u8]], name: &[u8]) -> bool
    ensures { result ≡ may_stand (map (λ x. x.now) before.now) name.now }
{
    if before.is_empty() {
        name == b"stay".as_slice()
    } else {
        is_lawful_name(name) && !before.contains(&name)
    }
}

// The number of the first field that may not stand where it does.
fn bad_title(titles: &[&[u8]]) -> Option<usize>
    ensures { result ≡ bad_title (map (λ x. x.now) titles.now) }
{
    titles
        .iter()
        .enumerate()
        .position(|(i, name)| !may_stand(&titles[..i], name))
}

impl<'a> Header<'a> {
    // The header with these fields, if they may stand there.
    pub(crate) fn of(kept: Kept<&'a [u8]>) -> Result<Header<'a>, RecordFault>
        ensures { told_header result ≡ names_by (lent (firsts kept.entry)) }
    {
        if kept.count < FEWEST_FIELDS || kept.count > KEPT {
            return Err(RecordFault::Width(kept.at));
        }
        match bad_title(kept.values()) {
            // Each title has its place, so the record's place doesn't come.
            Some(i) => Err(RecordFault::Name(kept.place(i).unwrap_or(kept.at))),
            None => Ok(Header { kept }),
        }
    }
}
