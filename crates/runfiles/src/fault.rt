// Why a record is not fed, through all layers.
ghost use Rattle.std.specs.Prelude.{◌≡◌};
ghost use Rattle.runfiles.specs.Faults.{from_record, refusal_of, state_at};

use records::{Position, RecordFault, Refusal};

// The number of the state, from 0, that the record at fault would have been, and why it is none.
#[derive(Clone, Copy, PartialEq, Eq, Debug)]
pub struct RunFault {
    pub state: usize,
    pub cause: Cause,
}

#[derive(Clone, Copy, PartialEq, Eq, Debug)]
pub enum Cause {
    // The record is none of numbers, or the header none of names.
    Record(RecordFault),
    // The run refuses the state; the number is the place in the file.
    Run(runs::Refusal, usize),
}

// The number of the state, from 0, of the record at this position: the header is row 0 of the file.
pub(crate) fn state_at(at: Position) -> usize
    ensures { result ≡ state_at at }
{
    at.row.saturating_sub(1)
}

impl From<RecordFault> for RunFault {
    ghost from_gives = { λ f r. r ≡ from_record f };

    fn from(fault: RecordFault) -> RunFault {
        RunFault {
            state: state_at(fault.at()),
            cause: Cause::Record(fault),
        }
    }
}

// What a caller is told of it.
impl From<RunFault> for Refusal {
    ghost from_gives = { λ f r. r ≡ refusal_of f.cause };

    fn from(fault: RunFault) -> Refusal {
        match fault.cause {
            Cause::Record(fault) => Refusal::from(fault),
            Cause::Run(refusal, place) => Refusal {
                number: refusal.number(),
                place,
            },
        }
    }
}
