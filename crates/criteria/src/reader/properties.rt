// Formulas: comparisons, prefixes, brackets and connectives.
ghost use Rattle.std.specs.Prelude.{◌≡◌, ◌<◌, OnOk};
ghost use Rattle.grammar.specs.Reading.{first, sign_at, sign_level};
ghost use Rattle.grammar.specs.Trees.{MeasureTree, PropertyTree};
ghost use Rattle.criteria.specs.States.{AtToken, Balanced, Does, Follows, View, view};
ghost use Rattle.criteria.specs.Ways.{Ends, bracketed_way, change_comparison_way, columns_of, compared_way, comparison_way, index_way, lead_way, link_way, linked_way, links_way, next_lead_way, operand_way, prefix_sign_way, prefixed_way, tier_way};

use super::super::fault::{Breach, Rule};
use super::Reader;
use super::operands::Context;
use parts::{Connective, Part, Prefix, Quantity};
use tokens::{ConnectiveSign, PrefixSign, Punctuation, Sign, Word};

// The largest index of X.
const LARGEST_INDEX: u64 = 4_096;

// How loosely U binds, the loosest of the connectives. A level is a number, since a formula goes down them one by one.
const LOOSEST: usize = 5;

impl<'t> Reader<'t> {
    // A comparison from its comparator on, behind its left measure, whose part stands at an index.
    fn compared(&mut self, left: usize, quantity: Quantity, left_at: usize) -> Result<usize, Breach>
        ensures answer { (m : MeasureTree) → Follows (compared_way self.old.scope.now left quantity m left_at) (view self.old) result (view self.new) }
        ensures balance { OnOk result (Balanced self.old self.new) }
    {
        let Word::Comparator(comparator) = self.token.word() else {
            return Err(self.breach(Rule::Grammar));
        };
        self.bring()?;
        self.advance();
        self.measure(left, Context::Formula)?;
        Ok(self.write(Part::Compare(comparator, quantity, left_at)))
    }

    fn comparison(&mut self, left: usize) -> Result<usize, Breach>
        ensures { Does (comparison_way self.old.scope.now left) self.old result self.new }
    {
        let first = self.measure(left, Context::Formula)?;
        self.compared(left, Quantity::Value, first.at)
    }

    // The token at hand is d.
    fn change_comparison(&mut self, left: usize) -> Result<usize, Breach>
        requires { AtToken self.old }
        ensures { Does (change_comparison_way self.old.scope.now left) self.old result self.new }
    {
        self.advance();
        self.opening(left)?;
        let first = self.measure(left - 1, Context::Formula)?;
        self.punctuation(Punctuation::Close)?;
        self.compared(left, Quantity::Change, first.at)
    }

    // The index of X, behind its bracket. Other signs and another limit than a window's: one function for both would say no more.
    fn index(&mut self) -> Result<u64, Breach>
        ensures { Does index_way self.old result self.new }
    {
        let Word::Numeral(Sign::Unsigned | Sign::Plus, index) = self.token.word() else {
            return Err(self.breach(Rule::Grammar));
        };
        if index > LARGEST_INDEX {
            return Err(self.breach(Rule::Limit));
        }
        self.advance();
        Ok(index)
    }

    // X alone, or with an index, behind its sign.
    fn next_lead(&mut self) -> Result<Prefix, Breach>
        ensures { Does next_lead_way self.old result self.new }
    {
        if !self.is_at(Punctuation::OpenWindow) {
            return Ok(Prefix::Next(1));
        }
        self.advance();
        let index = self.index()?;
        self.punctuation(Punctuation::CloseWindow)?;
        Ok(Prefix::Next(index))
    }

    // A prefix behind its sign. Signs are kinds and no steps: each says which prefix was read.
    fn lead(&mut self, sign: PrefixSign) -> Result<Prefix, Breach>
        ensures { Does (lead_way sign) self.old result self.new }
    {
        match sign {
            PrefixSign::Not => Ok(Prefix::Not),
            PrefixSign::Next => self.next_lead(),
            PrefixSign::Eventually => Ok(Prefix::Eventually(self.window()?)),
            PrefixSign::Always => Ok(Prefix::Always(self.window()?)),
        }
    }

    // The sign of a prefix, which brings a part and a nesting.
    fn prefix_sign(&mut self, left: usize) -> Result<(), Breach>
        requires { AtToken self.old }
        ensures answer { Follows (prefix_sign_way left) (view self.old) result (view self.new) }
        ensures count { self.new.count ≡ self.old.count }
    {
        if left == 0 {
            return Err(self.breach(Rule::Size));
        }
        self.bring()?;
        self.advance();
        Ok(())
    }

    // The token at hand is this prefix's sign.
    #[cycle(bracketed_formula_linked_links_operand_prefix_tier)]
    fn prefix(&mut self, left: usize, sign: PrefixSign) -> Result<usize, Breach>
        requires { AtToken self.old }
        ensures { Does (prefixed_way self.old.scope.now left sign) self.old result self.new }
    {
        self.prefix_sign(left)?;
        let prefix = self.lead(sign)?;
        self.operand(left - 1)?;
        Ok(self.write(Part::Prefix(prefix)))
    }

    #[cycle(bracketed_formula_linked_links_operand_prefix_tier)]
    fn bracketed(&mut self, left: usize) -> Result<usize, Breach>
        ensures { Does (bracketed_way self.old.scope.now left) self.old result self.new }
    {
        self.opening(left)?;
        let at = self.formula(left - 1)?;
        self.punctuation(Punctuation::Close)?;
        Ok(at)
    }

    // What a prefix can stand before.
    #[cycle(bracketed_formula_linked_links_operand_prefix_tier)]
    fn operand(&mut self, left: usize) -> Result<usize, Breach>
        ensures { Does (operand_way self.old.scope.now left) self.old result self.new }
    {
        match self.token.word() {
            Word::Punctuation(_) => self.bracketed(left),
            Word::Prefix(sign) => self.prefix(left, sign),
            Word::Change => self.change_comparison(left),
            _ => self.comparison(left),
        }
    }

    // A connective behind its sign, which is a kind and no step.
    fn link(&mut self, sign: ConnectiveSign) -> Result<Connective, Breach>
        ensures { Does (link_way sign) self.old result self.new }
    {
        match sign {
            ConnectiveSign::And => Ok(Connective::And),
            ConnectiveSign::Or => Ok(Connective::Or),
            ConnectiveSign::Implies => Ok(Connective::Implies),
            ConnectiveSign::Iff => Ok(Connective::Iff),
            ConnectiveSign::Until => Ok(Connective::Until(self.window()?)),
        }
    }

    // The connective's sign at hand, if it is of this level.
    fn sign_at(&self, level: usize) -> Option<ConnectiveSign>
        ensures { result ≡ sign_at level (first (view self.now).spots).tok }
    {
        match self.token.word() {
            Word::Connective(sign) if level_of(sign) == level => Some(sign),
            _ => None,
        }
    }

    // One more operand, to the right of what stands at an index. The token at hand is this connective's sign.
    #[cycle(bracketed_formula_linked_links_operand_prefix_tier)]
    fn linked(
        &mut self,
        level: usize,
        left: usize,
        sign: ConnectiveSign,
        left_at: usize,
    ) -> Result<usize, Breach>
        requires { AtToken self.old }
        ensures answer { (p : PropertyTree) → Follows (linked_way self.old.scope.now left level p sign left_at) (view self.old) result (view self.new) }
        ensures balance { OnOk result (Balanced self.old self.new) }
    {
        self.bring()?;
        self.advance();
        let connective = self.link(sign)?;
        self.tier(level, left)?;
        Ok(self.write(Part::Connective(connective, left_at)))
    }

    // The connectives of this level that follow what was read last, whose part stands at an index.
    #[cycle(bracketed_formula_linked_links_operand_prefix_tier)]
    fn links(&mut self, level: usize, left: usize, first_at: usize) -> Result<usize, Breach>
        requires { 0 < level }
        ensures answer { (p : PropertyTree) (v : View) → Ends (columns_of v.scope) v p (view self.old) first_at → Follows (links_way v.scope left level p) v result (view self.new) }
        ensures balance { OnOk result (Balanced self.old self.new) }
    {
        let mut at = first_at;
        while let Some(sign) = self.sign_at(level) {
            at = self.linked(level - 1, left, sign, at)?;
        }
        Ok(at)
    }

    // What is bound as tightly as this level.
    #[cycle(bracketed_formula_linked_links_operand_prefix_tier)]
    fn tier(&mut self, level: usize, left: usize) -> Result<usize, Breach>
        ensures { Does (tier_way self.old.scope.now left level) self.old result self.new }
    {
        if level == 0 {
            return self.operand(left);
        }
        let at = self.tier(level - 1, left)?;
        self.links(level, left, at)
    }

    // A whole formula, where so many nestings are left.
    #[cycle(bracketed_formula_linked_links_operand_prefix_tier)]
    pub(super) fn formula(&mut self, left: usize) -> Result<usize, Breach>
        ensures { Does (tier_way self.old.scope.now left 5) self.old result self.new }
    {
        self.tier(LOOSEST, left)
    }
}

fn level_of(sign: ConnectiveSign) -> usize
    ensures { result ≡ sign_level sign }
{
    match sign {
        ConnectiveSign::And => 1,
        ConnectiveSign::Or => 2,
        ConnectiveSign::Implies => 3,
        ConnectiveSign::Iff => 4,
        ConnectiveSign::Until => LOOSEST,
    }
}
