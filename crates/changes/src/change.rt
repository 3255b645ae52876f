// A variable and its new value. A cell holds both: 16 times the value, and the variable.
ghost use Rattle.std.specs.Prelude.{◌≡◌, ◌<◌, ◌≤ℤ◌, ◌<ℤ◌, ◌==◌, cond, pos, negsuc};
ghost use Rattle.changes.specs.Encoding.{packed, value_of, variable_of};

#[derive(Clone, Copy)]
pub(crate) struct Change {
    pub(crate) variable: usize,
    pub(crate) value: i32,
    ghost few: { variable < 16 },
    ghost low: { negsuc 134217727 ≤ℤ value },
    ghost high: { value <ℤ pos 134217728 },
}

impl From<Change> for i32 {
    ghost from_gives = { λ change cell. cell ≡ packed change.value change.variable };

    fn from(change: Change) -> i32 {
        change.value * 16 + change.variable as i32
    }
}

impl From<i32> for Change {
    ghost from_gives = { λ cell change. (change.variable ≡ variable_of cell) × (change.value ≡ value_of cell) };

    // The value rounds down, since the variable was added to 16 times the value.
    fn from(cell: i32) -> Change {
        Change {
            variable: cell.rem_euclid(16) as usize,
            value: cell.div_euclid(16),
        }
    }
}

impl Change {
    // The value of a variable after this change.
    pub(crate) fn value_after(self, variable: usize, before: i32) -> i32
        ensures { result ≡ cond (self.variable == variable) self.value before }
    {
        if self.variable == variable {
            self.value
        } else {
            before
        }
    }
}
