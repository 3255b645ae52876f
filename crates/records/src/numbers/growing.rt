// A record, grown field by field.
ghost use Rattle.std.specs.Prelude.{◌≡◌, ◌+◌, ◌^◌, ◌<◌, []};
ghost use Rattle.records.specs.Records.{drafted, draft_of, first_beyond, with_entry};
ghost use Rattle.records.specs.Told.{firsts};

use super::super::fault::Position;
use super::super::kept::Kept;
use super::{Draft, Entry, Record};

impl Draft {
    pub(crate) fn new(at: Position) -> Draft
        ensures { drafted result ≡ draft_of at [] }
    {
        Draft {
            kept: Kept::new(at, 0),
            beyond: None,
        }
    }

    pub(crate) fn add(&mut self, entry: Entry)
        requires { self.old.kept.count + 1 < 2 ^ 64 }
        ensures { drafted self.new ≡ with_entry (drafted self.old) entry }
    {
        // 0 stands in for a number beyond the limit: the whole record is then refused.
        self.kept.keep(entry.value.unwrap_or(0), entry.at);
        self.beyond = first_beyond(self.beyond, entry);
    }

    pub(crate) fn done(self) -> Record
        ensures { result.fields ≡ self.kept }
    {
        Record { fields: self.kept }
    }
}

fn first_beyond(before: Option<Position>, entry: Entry) -> Option<Position>
    ensures { result ≡ first_beyond before entry }
{
    match (before, entry.value) {
        (None, None) => Some(entry.at),
        _ => before,
    }
}
