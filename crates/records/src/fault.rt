// Where a field stands, and why a reading is refused.
ghost use Rattle.std.specs.Prelude.{◌≡◌, Some};
ghost use Rattle.records.specs.Refusals.{number_of, position_of, refusal, refusal_text};
ghost use Rattle.records.specs.declared.fault.RecordFault.TheVariants.{Text};

use std::fmt;

// Where a field stands: the number of its record in the file, its own number in that record, and the index of its first byte, all from 0.
#[derive(Clone, Copy, PartialEq, Eq, Debug)]
pub struct Position {
    pub row: usize,
    pub column: usize,
    pub byte: usize,
}

impl Position {
    // Where a file begins.
    pub const START: Position = Position {
        row: 0,
        column: 0,
        byte: 0,
    };
}

// What begins there is no field by RFC 4180.
#[derive(Clone, Copy, PartialEq, Eq, Debug)]
pub struct TextFault {
    pub at: Position,
}

// Why a record or a header is refused. The position is the faulty field's, but for `Width` the record's.
#[derive(Clone, Copy, PartialEq, Eq, Debug)]
pub enum RecordFault {
    // The file has more than 65,536 bytes.
    TooLong,
    Text(TextFault),
    // A header name holds a quote.
    Quote(Position),
    // A number field is no whole numeral.
    Numeral(Position),
    // A number is beyond 10^9.
    Limit(Position),
    // The header has fewer than 2 or more than 17 fields, or a record has another number of fields than the header.
    Width(Position),
    // The first header field is not `stay`, or a name is unlawful or stood before.
    Name(Position),
}

impl From<TextFault> for RecordFault {
    ghost from_gives = { λ f r. r ≡ Text f };

    fn from(fault: TextFault) -> RecordFault {
        RecordFault::Text(fault)
    }
}

// What a caller is told of a refusal: its number, which the format lays down, and the index of a byte of the file.
#[derive(Clone, Copy, PartialEq, Eq, Debug)]
pub struct Refusal {
    pub number: u8,
    pub place: usize,
}

impl RecordFault {
    // Where the faulty field stands, or the record for its width.
    pub fn at(self) -> Position
        ensures { result ≡ position_of self }
    {
        match self {
            RecordFault::TooLong => Position::START,
            RecordFault::Text(fault) => fault.at,
            RecordFault::Quote(at) | RecordFault::Numeral(at) | RecordFault::Limit(at) => at,
            RecordFault::Width(at) | RecordFault::Name(at) => at,
        }
    }

    // A method and no From: a number says which of several.
    fn number(self) -> u8
        ensures { result ≡ number_of self }
    {
        match self {
            RecordFault::TooLong => 1,
            RecordFault::Limit(_) => 3,
            RecordFault::Text(_) | RecordFault::Quote(_) | RecordFault::Numeral(_) => 8,
            RecordFault::Width(_) | RecordFault::Name(_) => 9,
        }
    }
}

impl From<RecordFault> for Refusal {
    ghost from_gives = { λ f r. r ≡ refusal f };

    fn from(fault: RecordFault) -> Refusal {
        Refusal {
            number: fault.number(),
            place: fault.at().byte,
        }
    }
}

// As in a line of a statement: the number and the place.
impl fmt::Display for Refusal {
    ghost output = { λ r. Some (refusal_text r) };

    fn fmt<W: fmt::Write>(&self, f: &mut fmt::Formatter<W>) -> fmt::Result {
        let number = self.number;
        let place = self.place;
        write!(f, "{number},{place}")
    }
}
