// Reading a text token by token.
ghost use Rattle.std.specs.Prelude.{◌≡◌, ◌≤◌, length};
ghost use Rattle.tokens.specs.Lexing.{end_at, spot_at, start};
ghost use Rattle.tokens.specs.Told.{spot_of};

use super::super::lexeme::Front;
use super::super::spans::run_len;
use super::super::token::Token;
use super::Lexer;

impl<'a> Lexer<'a> {
    pub fn over(text: &'a [u8]) -> Lexer<'a>
        ensures text { result.text ≡ text.entry }
        ensures place { result.at ≡ 0 }
    {
        Lexer { text, at: 0 }
    }

    // Where the next token begins, or the text ends.
    fn start(&self) -> usize
        ensures value { result ≡ start self.now.text.now self.now.at }
        ensures bound { result ≤ length self.now.text.now }
    {
        self.at + run_len(&self.text[self.at..], |b| b == b' ')
    }

    // The next token. Behind the last one it is the end of the text, again and again.
    pub fn next_token(&mut self) -> Token<'a>
        ensures answer { spot_of result ≡ spot_at self.old.text.now self.old.at }
        ensures after { self.new.at ≡ end_at self.old.text.now self.old.at }
        ensures text { self.new.text ≡ self.old.text }
    {
        let start = self.start();
        if start == self.text.len() {
            self.at = start;
            return Token::Stop(start);
        }
        let front = Front {
            bytes: &self.text[start..],
            at: start,
        };
        let found = front.lexeme();
        self.at = start + found.size;
        found.token
    }
}
