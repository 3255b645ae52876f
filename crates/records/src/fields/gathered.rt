// What the fields of one record come to.
ghost use Rattle.std.specs.Prelude.{◌≡◌, ◌+◌, ◌^◌, ◌<◌, List, [], ◌∷◌, ◌++◌, length, Result, OnOk};
ghost use Rattle.records.specs.Cursor.{Seen};
ghost use Rattle.records.specs.RecordFields.{row, behind_row, gathered, map_ok};
ghost use Rattle.records.specs.Told.{cursor, seen_field};
ghost use Rattle.records.specs.declared.fault.Position.{Position as Place};
ghost use Rattle.records.specs.declared.fault.RecordFault.{RecordFault as Fault};

use super::super::cut::Next;
use super::super::fault::{Position, RecordFault};
use super::{Field, Fields};

// The fields of a record, taken one after the other from the left.
pub(crate) trait Gathered<'a>: Copy {
    // What a field is read as, and what the items of a record that begins there come to.
    ghost Item: { Type 0 };

    ghost Sum: { Type 0 };

    ghost read: { Seen → Result Item Fault };

    ghost sum_of: { Place → List Item → Sum };

    // What is gathered says this.
    ghost told: { Self → Sum };

    fn none(at: Position) -> Self
        ensures { told result ≡ sum_of at [] };

    // One field more, or why it is refused.
    fn take(&mut self, field: Field<'a>) -> Result<(), RecordFault>
        requires { (at : Place) × (xs : List Item) × (told self.old ≡ sum_of at xs) × (length xs + 1 < 2 ^ 64) }
        ensures { (at : Place) (xs : List Item) → told self.old ≡ sum_of at xs → map_ok (λ _. told self.new) result ≡ map_ok (λ x. sum_of at (xs ++ (x ∷ []))) (read (seen_field field.entry)) };
}

impl<'a> Fields<'a> {
    // What the fields of the record that begins here come to. The reader goes behind the record, if no field of it is refused.
    pub(super) fn gather<G: Gathered<'a>>(&mut self) -> Result<G, RecordFault>
        ensures answer { map_ok G.told result ≡ gathered (G.sum_of self.old.at) (row G.read self.old.bytes.now (cursor self.old)) }
        ensures after { OnOk result (cursor self.new ≡ behind_row (row G.read self.old.bytes.now (cursor self.old)) (cursor self.old)) }
        ensures bytes { self.new.bytes ≡ self.old.bytes }
    {
        let mut sum = G::none(self.at);
        while let Some(field) = self.next_field()? {
            sum.take(field)?;
            if field.next != Next::Field {
                return Ok(sum);
            }
        }
        Ok(sum)
    }
}
