// A token of a text.
ghost use Rattle.std.specs.Prelude.{◌≡◌};
ghost use Rattle.tokens.specs.Told.{seen, spot_of};

use super::words::{ConnectiveSign, Punctuation};
use parts::Comparator;

// Names, numerals and variables are parts of the caller's text.
// Each holds the index of its first byte. In each case, and no struct round the cases: callers match a token whole.
#[derive(Clone, Copy, PartialEq, Eq, Debug)]
pub enum Token<'a> {
    // A longest run of letters.
    Name(&'a [u8], usize),
    // An optional sign and digits.
    Numeral(&'a [u8], usize),
    // The name between the braces.
    Variable(&'a [u8], usize),
    Punctuation(Punctuation, usize),
    Comparator(Comparator, usize),
    Connective(ConnectiveSign, usize),
    // ~
    Not(usize),
    // A byte that begins no token.
    Stray(usize),
    // The end of the text.
    Stop(usize),
}

// A token, and its size in bytes.
#[derive(Clone, Copy)]
pub struct Lexeme<'a> {
    pub token: Token<'a>,
    pub size: usize,
}

impl<'a> Lexeme<'a> {
    pub(crate) fn single(token: Token<'a>) -> Lexeme<'a>
        ensures { seen result ≡ record { spot = spot_of token.entry; size = 1 } }
    {
        Lexeme { token, size: 1 }
    }
}
