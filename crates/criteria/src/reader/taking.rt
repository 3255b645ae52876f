// Taking tokens.
ghost use Rattle.std.specs.Prelude.{◌≡◌};
ghost use Rattle.grammar.specs.Reading.{first, is_mark, rest};
ghost use Rattle.criteria.specs.States.{AtToken, Balanced, Does, moved, view};
ghost use Rattle.criteria.specs.Ways.{opening_way, punctuation_way};

use super::super::fault::{Breach, Rule};
use super::Reader;
use tokens::{Punctuation, Word};

impl<'t> Reader<'t> {
    // The next token is at hand.
    pub(super) fn advance(&mut self)
        requires { AtToken self.old }
        ensures after { view self.new ≡ moved (view self.old) (view self.old).brought (rest (view self.old).spots) }
        ensures balance { Balanced self.old self.new }
    {
        self.token = self.lexer.next_token();
    }

    // The token at hand breaks a rule.
    pub(super) fn breach(&self, rule: Rule) -> Breach
        ensures { result ≡ record { rule = rule; place = (first (view self.now).spots).at } }
    {
        Breach {
            rule,
            place: self.token.at(),
        }
    }

    pub(super) fn is_at(&self, p: Punctuation) -> bool
        ensures { result ≡ is_mark p (first (view self.now).spots).tok }
    {
        matches!(self.token.word(), Word::Punctuation(q) if p == q)
    }

    pub(super) fn punctuation(&mut self, p: Punctuation) -> Result<(), Breach>
        ensures { Does (punctuation_way p) self.old result self.new }
    {
        if !self.is_at(p) {
            return Err(self.breach(Rule::Grammar));
        }
        self.advance();
        Ok(())
    }

    // An opening bracket, where so many nestings are left.
    pub(super) fn opening(&mut self, left: usize) -> Result<(), Breach>
        ensures { Does (opening_way left) self.old result self.new }
    {
        if left == 0 && self.is_at(Punctuation::Open) {
            return Err(self.breach(Rule::Size));
        }
        self.punctuation(Punctuation::Open)
    }
}
