// Why a call on a run is refused. Each case has one number, and place 0, since no text is at hand.
ghost use Rattle.std.specs.Prelude.{◌≡◌};
ghost use Rattle.runs.specs.Feeding.{number};

#[derive(Clone, Copy, PartialEq, Eq, Debug)]
pub enum Refusal {
    // A width outside 1 to 16, or another number of values than the width.
    Width,
    // Feed or close on a run that has ended.
    Ended,
    // A stay outside 1 to the longest stay, or a longest stay outside 1 to 100,000.
    Stay,
    // A value beyond the largest magnitude of the recorder's kind.
    Magnitude,
    // The state needs more cells than are free.
    Full,
    // Close on a run without states.
    NoStates,
}

impl Refusal {
    // A method and no From: a number says which of several.
    pub fn number(self) -> u8
        ensures { result ≡ number self }
    {
        match self {
            Refusal::Width => 9,
            Refusal::Ended => 10,
            Refusal::Stay => 11,
            Refusal::Magnitude => 12,
            Refusal::Full => 13,
            Refusal::NoStates => 14,
        }
    }
}
