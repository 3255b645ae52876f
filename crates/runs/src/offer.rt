// A state as it is offered to a run.
ghost use Rattle.std.specs.Prelude.{◌≡◌};
ghost use Rattle.runs.specs.Feeding.{all_within, stay_within};

// Its numbers are wide, so that any can be offered and is refused, not cut.
#[derive(Clone, Copy, PartialEq, Eq, Debug)]
pub struct Offer<'a> {
    pub stay: i64,
    pub values: &'a [i64],
}

impl<'a> Offer<'a> {
    pub(super) fn stay_within(self, longest: u64) -> bool
        ensures { result ≡ stay_within longest self.entry.stay }
    {
        u64::try_from(self.stay).is_ok_and(|stay| (1..=longest).contains(&stay))
    }

    pub(super) fn all_within(self, largest: u64) -> bool
        ensures { result ≡ all_within largest self.entry.values.now }
    {
        self.values.iter().all(|v| v.unsigned_abs() <= largest)
    }
}
