// Bringing and writing parts. A token brings its part before the part is written, which is behind its operands.
ghost use Rattle.std.specs.Prelude.{◌≡◌, ◌+◌, ◌<◌, [], ◌∷◌};
ghost use Rattle.criteria.specs.States.{Follows, grown, view};
ghost use Rattle.criteria.specs.Ways.{bring_way};

use super::super::fault::{Breach, Rule};
use super::{MOST_PARTS, Reader};
use parts::Part;

impl<'t> Reader<'t> {
    // The token at hand brings a part.
    pub(super) fn bring(&mut self) -> Result<(), Breach>
        ensures answer { Follows bring_way (view self.old) result (view self.new) }
        ensures count { self.new.count ≡ self.old.count }
    {
        if self.brought >= MOST_PARTS {
            return Err(self.breach(Rule::Size));
        }
        self.brought += 1;
        Ok(())
    }

    // Writes a part that is brought, and tells its index.
    pub(super) fn write(&mut self, part: Part) -> usize
        requires { self.old.count < self.old.brought }
        ensures answer { result ≡ self.old.count }
        ensures after { view self.new ≡ grown (view self.old) (part ∷ []) self.old.brought (view self.old).spots }
        ensures count { self.new.count ≡ self.old.count + 1 }
    {
        let at = self.count;
        self.parts[at] = part;
        self.count = at + 1;
        at
    }
}
