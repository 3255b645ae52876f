// A whole text.
ghost use Rattle.std.specs.Prelude.{◌≡◌, ◌-◌, true, length, replicate};
ghost use Rattle.records.specs.Told.{names};
ghost use Rattle.tokens.specs.Lexing.{spots};
ghost use Rattle.tokens.specs.Tokens.{is_stop};
ghost use Rattle.grammar.specs.Reading.{first, reading};
ghost use Rattle.criteria.specs.Criteria.{by_outcome, told_formula};
ghost use Rattle.criteria.specs.Formulas.{blank, is_formula};
ghost use Rattle.criteria.specs.States.{unread, view};
ghost use Rattle.criteria.specs.Told.{written};
ghost use Rattle.criteria.specs.Ways.{rules_of};

use super::super::fault::{Breach, Rule};
use super::super::formula::Formula;
use super::super::scope::Scope;
use super::{MOST_PARTS, Reader};
use parts::Part;
use tokens::{Lexer, Word};

// How deeply a text may be nested.
const MOST_NESTING: usize = 32;

impl<'t> Reader<'t> {
    // At the first token of a text.
    fn over(scope: &'t Scope<'t>, text: &'t [u8]) -> Reader<'t>
        ensures { view result ≡ unread scope.now text.now }
    {
        let mut lexer = Lexer::over(text);
        let token = lexer.next_token();
        Reader {
            scope,
            lexer,
            token,
            parts: [Part::Numeral(0); MOST_PARTS],
            count: 0,
            brought: 0,
        }
    }

    fn is_ended(&self) -> bool
        ensures { result ≡ is_stop (first (view self.now).spots).tok }
    {
        matches!(self.token.word(), Word::Stop)
    }

    // The formula of the parts that are written.
    fn made(&self) -> Formula
        requires lawful { is_formula (length (names self.now.scope.now.header)) self.now.scope.now.magnitude (view self.now).parts ≡ true }
        requires rest { (view self.now).behind ≡ replicate (128 - self.now.count) blank }
        ensures { written result ≡ record { parts = (view self.now).parts; width = length (names self.now.scope.now.header); magnitude = self.now.scope.now.magnitude } }
    {
        Formula::of(
            self.parts,
            self.count,
            self.scope.header.width(),
            self.scope.magnitude,
        )
    }
}

// The formula that a text writes.
pub fn read_text<'t>(text: &'t [u8], scope: &'t Scope<'t>) -> Result<Formula, Breach>
    ensures { told_formula result ≡ by_outcome (names scope.now.header) scope.now.magnitude (reading (rules_of scope.now) (spots text.now)) }
{
    let mut reader = Reader::over(scope, text);
    reader.formula(MOST_NESTING)?;
    if !reader.is_ended() {
        return Err(reader.breach(Rule::Grammar));
    }
    Ok(reader.made())
}
