// What names, numerals and other tokens mean.
ghost use Rattle.std.specs.Prelude.{◌≡◌, slice_index};
ghost use Rattle.tokens.specs.Lexing.{figure, letter_named, measure_named, named, sign_of};
ghost use Rattle.tokens.specs.Told.{spot_of, tok_of};

use super::token::Token;
use super::words::{ConnectiveSign, PrefixSign, Sign, Word};
use parts::{Binary, Statistic, Unary};
use records::Numeral;

// The names of measures. A table and no match: a match on nine texts was tried, and its last arm stayed open.
static MEASURES: [(&str, Word<'static>); 9] = [
    ("abs", Word::Unary(Unary::Abs)),
    ("sign", Word::Unary(Unary::Sign)),
    ("add", Word::Binary(Binary::Add)),
    ("subtract", Word::Binary(Binary::Subtract)),
    ("multiply", Word::Binary(Binary::Multiply)),
    ("min", Word::Statistic(Statistic::Min)),
    ("max", Word::Statistic(Statistic::Max)),
    ("sum", Word::Statistic(Statistic::Sum)),
    ("count", Word::Statistic(Statistic::Count)),
];

fn measure_named(name: &[u8]) -> Word<'static>
    ensures { tok_of result ≡ measure_named name.now }
{
    MEASURES
        .iter()
        .find(|measure| name == measure.0.as_bytes())
        .map_or(Word::Stray, |measure| measure.1)
}

fn letter_named(letter: u8) -> Word<'static>
    ensures { tok_of result ≡ letter_named letter }
{
    match letter {
        b'd' => Word::Change,
        b'U' => Word::Connective(ConnectiveSign::Until),
        b'F' => Word::Prefix(PrefixSign::Eventually),
        b'G' => Word::Prefix(PrefixSign::Always),
        b'X' => Word::Prefix(PrefixSign::Next),
        _ => Word::Stray,
    }
}

// What a run of letters means.
fn word_named(name: &[u8]) -> Word<'static>
    ensures { tok_of result ≡ named name.now }
{
    match name {
        [letter] => letter_named(*letter),
        _ => measure_named(name),
    }
}

fn sign_of(text: &[u8]) -> Sign
    ensures { result ≡ sign_of (slice_index text.now 0) }
{
    match text {
        [b'+', ..] => Sign::Plus,
        [b'-', ..] => Sign::Minus,
        _ => Sign::Unsigned,
    }
}

// A numeral that was cut has a digit, so None does not come; 0 stands for it.
fn word_figured(text: &[u8]) -> Word<'static>
    ensures { tok_of result ≡ figure text.now }
{
    Word::Numeral(
        sign_of(text),
        Numeral::read(text).map_or(0, |n| n.magnitude),
    )
}

impl<'a> Token<'a> {
    // The index of its first byte.
    pub fn at(self) -> usize
        ensures { result ≡ (spot_of self.entry).at }
    {
        match self {
            Token::Name(_, at) | Token::Numeral(_, at) | Token::Variable(_, at) => at,
            Token::Punctuation(_, at) => at,
            Token::Comparator(_, at) => at,
            Token::Connective(_, at) => at,
            Token::Not(at) | Token::Stray(at) | Token::Stop(at) => at,
        }
    }

    pub fn word(self) -> Word<'a>
        ensures { tok_of result ≡ (spot_of self.entry).tok }
    {
        match self {
            Token::Name(name, _) => word_named(name),
            Token::Numeral(text, _) => word_figured(text),
            Token::Variable(name, _) => Word::Variable(name),
            Token::Punctuation(p, _) => Word::Punctuation(p),
            Token::Comparator(c, _) => Word::Comparator(c),
            Token::Connective(x, _) => Word::Connective(x),
            Token::Not(_) => Word::Prefix(PrefixSign::Not),
            Token::Stray(_) => Word::Stray,
            Token::Stop(_) => Word::Stop,
        }
    }
}
