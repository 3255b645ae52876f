// Records fed from a file, with each fault as its state, number and place.
use records::{Fields, Refusal};
use runfiles::{RunFault, feed_record};
use runs::Recorder;
use std::test::Fail;

// What is told of a record that is not fed.
#[derive(Clone, Copy, PartialEq, Eq, Debug)]
pub struct Fault {
    pub state: usize,
    pub number: u8,
    pub place: usize,
}

impl From<RunFault> for Fault {
    fn from(fault: RunFault) -> Fault {
        let refusal = Refusal::from(fault);
        Fault {
            state: fault.state,
            number: refusal.number,
            place: refusal.place,
        }
    }
}

pub fn feed_next<R: Recorder>(fields: &mut Fields<'_>, recorder: &mut R) -> Result<bool, Fault> {
    Ok(feed_record(fields, recorder)?)
}

pub fn refused(state: usize, number: u8, place: usize) -> Result<bool, Fault> {
    Err(Fault {
        state,
        number,
        place,
    })
}

pub fn skip_header(fields: &mut Fields<'_>) -> Result<(), Fail> {
    match fields.header() {
        Ok(_) => Ok(()),
        Err(fault) => Err(Fail::new(Refusal::from(fault).number)),
    }
}
