// The token that begins some bytes, and how many of them it has.
ghost use Rattle.std.specs.Prelude.{◌≡◌, ◌<◌, ◌≤◌, length, slice_index};
ghost use Rattle.std.specs.Int.{is_in_range};
ghost use Rattle.tokens.specs.Classes.{is_printable};
ghost use Rattle.tokens.specs.Lexing.{comparator_scan, digits_scan, figure_scan, name_scan, scan, scan_by, sign_scan, single, variable_scan, wide_scan, wide_sign};
ghost use Rattle.tokens.specs.Told.{scanned, seen};
ghost use Rattle.tokens.specs.Tokens.{comparator, mark};

use super::classes::{Class, class_of};
use super::spans::run_len;
use super::token::{Lexeme, Token};
use super::words::{ConnectiveSign, Punctuation};
use parts::Comparator;

// The longest name of a variable, in bytes: a limit of the language, whatever run files allow.
const LONGEST_NAME: usize = 64;

// What is left of a text from the first byte of a token on, and the index of that byte.
#[derive(Clone, Copy)]
pub struct Front<'a> {
    pub bytes: &'a [u8],
    pub at: usize,
    ghost some: { 0 < length bytes.now },
}

fn is_name_length(len: usize) -> bool
    ensures { result ≡ is_in_range 1 64 len }
{
    (1..=LONGEST_NAME).contains(&len)
}

// The language's rule for a variable's name, whatever names run files allow.
fn is_printable(b: u8) -> bool
    ensures { result ≡ is_printable b }
{
    matches!(b, b' '..=b'~') && b != b'{' && b != b'}'
}

// The connective that these bytes begin, told from those behind the first.
fn connective(bytes: &[u8]) -> Option<ConnectiveSign>
    ensures { result ≡ wide_sign (slice_index bytes.now 1) (slice_index bytes.now 2) }
{
    match bytes {
        [_, 0x88, 0xA7, ..] => Some(ConnectiveSign::And),
        [_, 0x88, 0xA8, ..] => Some(ConnectiveSign::Or),
        [_, 0x87, 0x92, ..] => Some(ConnectiveSign::Implies),
        [_, 0x87, 0x94, ..] => Some(ConnectiveSign::Iff),
        _ => None,
    }
}

impl<'a> Front<'a> {
    // No one method with `cut_numeral`: it would take a closure for the token, and a clause on what that token means.
    fn name(self) -> Lexeme<'a>
        ensures { seen result ≡ scanned (name_scan self.entry.bytes.now) self.entry.at }
    {
        let size = run_len(self.bytes, |b| b.is_ascii_alphabetic());
        Lexeme {
            token: Token::Name(&self.bytes[..size], self.at),
            size,
        }
    }

    // The numeral of so many bytes.
    fn cut_numeral(self, size: usize) -> Lexeme<'a>
        requires { size ≤ length self.bytes.now }
        ensures { seen result ≡ scanned (figure_scan size self.entry.bytes.now) self.entry.at }
    {
        Lexeme {
            token: Token::Numeral(&self.bytes[..size], self.at),
            size,
        }
    }

    fn numeral(self) -> Lexeme<'a>
        ensures { seen result ≡ scanned (digits_scan self.entry.bytes.now) self.entry.at }
    {
        self.cut_numeral(run_len(self.bytes, |b| b.is_ascii_digit()))
    }

    // A sign and digits; a sign alone begins no token.
    fn signed_numeral(self) -> Lexeme<'a>
        ensures { seen result ≡ scanned (sign_scan self.entry.bytes.now) self.entry.at }
    {
        let digits = run_len(&self.bytes[1..], |b| b.is_ascii_digit());
        if digits == 0 {
            return Lexeme::single(Token::Stray(self.at));
        }
        self.cut_numeral(1 + digits)
    }

    // A name between braces.
    fn variable(self) -> Lexeme<'a>
        ensures { seen result ≡ scanned (variable_scan self.entry.bytes.now) self.entry.at }
    {
        let rest = &self.bytes[1..];
        let len = run_len(rest, is_printable);
        if !is_name_length(len) || rest.get(len) != Some(&b'}') {
            return Lexeme::single(Token::Stray(self.at));
        }
        Lexeme {
            token: Token::Variable(&rest[..len], self.at),
            size: 2 + len,
        }
    }

    // A comparator, with = behind it or without.
    fn compared(self, with: Comparator, without: Comparator) -> Lexeme<'a>
        ensures { seen result ≡ scanned (comparator_scan (comparator with) (comparator without) self.entry.bytes.now) self.entry.at }
    {
        match self.bytes {
            [_, b'=', ..] => Lexeme {
                token: Token::Comparator(with, self.at),
                size: 2,
            },
            _ => Lexeme::single(Token::Comparator(without, self.at)),
        }
    }

    fn wide(self) -> Lexeme<'a>
        ensures { seen result ≡ scanned (wide_scan self.entry.bytes.now) self.entry.at }
    {
        match connective(self.bytes) {
            Some(sign) => Lexeme {
                token: Token::Connective(sign, self.at),
                size: 3,
            },
            None => Lexeme::single(Token::Stray(self.at)),
        }
    }

    fn mark(self, punctuation: Punctuation) -> Lexeme<'a>
        ensures { seen result ≡ scanned (single (mark punctuation)) self.entry.at }
    {
        Lexeme::single(Token::Punctuation(punctuation, self.at))
    }

    // A match on the class that the table of bytes tells, and no table of functions: each class has a scan of its own.
    fn lexeme_by(self, class: Class) -> Lexeme<'a>
        ensures { seen result ≡ scanned (scan_by class self.entry.bytes.now) self.entry.at }
    {
        match class {
            Class::Space | Class::Other => Lexeme::single(Token::Stray(self.at)),
            Class::Letter => self.name(),
            Class::Digit => self.numeral(),
            Class::Sign => self.signed_numeral(),
            Class::Brace => self.variable(),
            Class::Open => self.mark(Punctuation::Open),
            Class::Close => self.mark(Punctuation::Close),
            Class::OpenWindow => self.mark(Punctuation::OpenWindow),
            Class::CloseWindow => self.mark(Punctuation::CloseWindow),
            Class::Comma => self.mark(Punctuation::Comma),
            Class::Tilde => Lexeme::single(Token::Not(self.at)),
            Class::Less => self.compared(Comparator::AtMost, Comparator::Less),
            Class::Equal => Lexeme::single(Token::Comparator(Comparator::Equal, self.at)),
            Class::Greater => self.compared(Comparator::AtLeast, Comparator::Greater),
            Class::Wide => self.wide(),
        }
    }

    // The token that begins these bytes.
    pub(crate) fn lexeme(self) -> Lexeme<'a>
        ensures answer { seen result ≡ scanned (scan self.entry.bytes.now) self.entry.at }
        ensures bound { result.size ≤ length self.entry.bytes.now }
    {
        self.lexeme_by(class_of(self.bytes[0]))
    }
}
