// Verdicts, their bytes and their words.
ghost use Rattle.std.specs.Prelude.{◌≡◌, Some};
ghost use Rattle.verdicts.specs.Told.{byte_of, word_of};

use std::fmt;

// What a formula says of a run: as yet undecided where states that may follow, or the end of the run, decide it.
#[derive(Clone, Copy, PartialEq, Eq, Debug)]
pub enum Verdict {
    False,
    True,
    Undecided,
}

// The caller's bytes, as they are laid down: 3 marks a part that is a number and has no verdict.
const NUMBER: u8 = 3;

// The byte of a part: that of its verdict, or the mark of a number.
// A function and no From: Option and u8 are both types of the library.
pub fn cell(part: Option<Verdict>) -> u8
    ensures answer { result ≡ byte_of part }
{
    part.map_or(NUMBER, u8::from)
}

impl From<Verdict> for u8 {
    ghost from_gives = { λ v r. r ≡ byte_of (Some v) };

    fn from(verdict: Verdict) -> u8 {
        verdict as u8
    }
}

impl Verdict {
    // Beside Display, whose writer can fail: this can't.
    pub fn word(self) -> &'static str
        ensures answer { result.now ≡ word_of self }
    {
        match self {
            Verdict::False => "false",
            Verdict::True => "true",
            Verdict::Undecided => "undecided",
        }
    }
}

impl fmt::Display for Verdict {
    ghost output = { λ v. Some (word_of v) };

    fn fmt<W: fmt::Write>(&self, f: &mut fmt::Formatter<W>) -> fmt::Result {
        f.write_str(self.word())
    }
}
