// What a header says.
ghost use Rattle.std.specs.Prelude.{◌≡◌, bytes_eq, length, map};
ghost use Rattle.std.specs.Option.{option_map};
ghost use Rattle.std.specs.List.{slice_get};
ghost use Rattle.records.specs.Headers.{column_from};
ghost use Rattle.records.specs.Told.{names};

use super::Header;

impl<'a> Header<'a> {
    // The names of the columns, from the left.
    pub fn names(&self) -> &[&'a [u8]]
        ensures { map (λ x. x.now) result.now ≡ names self.now }
    {
        self.kept.rest()
    }

    // The number of columns.
    pub fn width(&self) -> usize
        ensures { result ≡ length (names self.now) }
    {
        self.names().len()
    }

    // The name of a column.
    pub fn name(&self, column: usize) -> Option<&'a [u8]>
        ensures { option_map (λ x. x.now) result ≡ slice_get (names self.now) column }
    {
        self.names().get(column).copied()
    }

    // The number of the column of this very name.
    pub fn column(&self, name: &[u8]) -> Option<usize>
        ensures { result ≡ column_from (names self.now) name.now 0 }
    {
        // The test has a clause of its own, so that a wrong one is refused where it stands.
        self.names().iter().position(
            |own|
                ensures { result ≡ bytes_eq own.now.now name.entry.now }
            { *own == name },
        )
    }
}
