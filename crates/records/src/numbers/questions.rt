// What a record says.
ghost use Rattle.std.specs.Prelude.{◌≡◌};
ghost use Rattle.std.specs.List.{slice_get};
ghost use Rattle.records.specs.Records.{numbers_of, stay_of, values_of, width_fault};

use super::super::fault::{Position, RecordFault};
use super::Record;

impl Record {
    // Where it begins.
    pub fn at(&self) -> Position
        ensures { result ≡ (numbers_of self.now).at }
    {
        self.fields.at
    }

    // How many fields it has, also where not all are kept.
    pub fn count(&self) -> usize
        ensures { result ≡ (numbers_of self.now).count }
    {
        self.fields.count
    }

    // The number in a field, the stay's being 0: None past the last field, and past the seventeenth.
    pub fn number(&self, field: usize) -> Option<i64>
        ensures { result ≡ slice_get (numbers_of self.now).values field }
    {
        self.fields.values().get(field).copied()
    }

    // The number in the first field. A record that was read has one, so callers have no case of None; 0 stands for it.
    pub fn stay(&self) -> i64
        ensures { result ≡ stay_of (numbers_of self.now) }
    {
        self.number(0).unwrap_or(0)
    }

    // The kept numbers behind the stay.
    pub fn values(&self) -> &[i64]
        ensures { result.now ≡ values_of (numbers_of self.now) }
    {
        self.fields.rest()
    }

    // Where that field stands.
    pub fn place(&self, field: usize) -> Option<Position>
        ensures { result ≡ slice_get (numbers_of self.now).places field }
    {
        self.fields.place(field)
    }

    // Refuses a record that has another number of fields than the stay and `width` values.
    pub fn check_width(&self, width: usize) -> Result<(), RecordFault>
        ensures { result ≡ width_fault (numbers_of self.now) width }
    {
        if self.fields.count > 0 && self.fields.count - 1 == width {
            Ok(())
        } else {
            Err(RecordFault::Width(self.fields.at))
        }
    }
}
