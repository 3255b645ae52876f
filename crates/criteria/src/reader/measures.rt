// Measures.
ghost use Rattle.std.specs.Prelude.{◌≡◌, ◌≤◌, Bool, OnOk};
ghost use Rattle.grammar.specs.Meanings.{signed};
ghost use Rattle.grammar.specs.Trees.{MeasureTree};
ghost use Rattle.criteria.specs.States.{AtToken, Balanced, Does, Follows, view};
ghost use Rattle.criteria.specs.Ways.{arguments_way, call_way, ending_way, is_inside, kept_bound, measure_way, numeral_way, variable_way};

use super::super::fault::{Breach, Rule};
use super::Reader;
use super::operands::{Call, Context, Function, Operand};
use super::windows::LARGEST_NUMERAL;
use parts::{Binary, Part, Statistic, Unary};
use tokens::{Punctuation, Sign, Word};

fn signed(sign: Sign, magnitude: u64) -> i64
    requires { magnitude ≤ 1000000000 }
    ensures { result ≡ signed sign magnitude }
{
    match sign {
        Sign::Unsigned | Sign::Plus => magnitude as i64,
        Sign::Minus => -(magnitude as i64),
    }
}

impl<'t> Reader<'t> {
    // The token at hand is this numeral.
    fn numeral(&mut self, sign: Sign, magnitude: u64) -> Result<Operand, Breach>
        requires { AtToken self.old }
        ensures { Does (numeral_way self.old.scope.now sign magnitude) self.old result self.new }
    {
        if magnitude > LARGEST_NUMERAL {
            return Err(self.breach(Rule::Limit));
        }
        self.bring()?;
        self.advance();
        let at = self.write(Part::Numeral(signed(sign, magnitude)));
        Ok(Operand {
            at,
            bound: magnitude,
        })
    }

    // The token at hand is the variable of this name.
    fn variable(&mut self, name: &[u8]) -> Result<Operand, Breach>
        requires { AtToken self.old }
        ensures { Does (variable_way self.old.scope.now name.now) self.old result self.new }
    {
        let scope = self.scope;
        let Some(column) = scope.header.column(name) else {
            return Err(self.breach(Rule::Column));
        };
        self.bring()?;
        self.advance();
        let at = self.write(Part::Variable(column));
        Ok(Operand {
            at,
            bound: scope.magnitude,
        })
    }

    // The closing bracket of a measure whose name stands at a place.
    fn ending(&mut self, place: usize, bound: Option<u64>) -> Result<u64, Breach>
        ensures answer { (m : MeasureTree) → bound ≡ kept_bound self.old.scope.now m → Follows (ending_way self.old.scope.now place m) (view self.old) result (view self.new) }
        ensures balance { OnOk result (Balanced self.old self.new) }
    {
        if !self.is_at(Punctuation::Close) {
            return Err(self.breach(Rule::Grammar));
        }
        let bound = bound.ok_or(Breach {
            rule: Rule::Bound,
            place,
        })?;
        self.advance();
        Ok(bound)
    }

    #[cycle(arguments_call_measure_one_argument_two_arguments_window_argument)]
    fn one_argument(&mut self, u: Unary, left: usize, context: Context) -> Result<Call, Breach>
        ensures { Does (arguments_way self.old.scope.now (Function.Unary u) left (is_inside context)) self.old result self.new }
    {
        let argument = self.measure(left, context)?;
        Ok(Call {
            part: Part::Unary(u),
            bound: u.bound(argument.bound),
        })
    }

    #[cycle(arguments_call_measure_one_argument_two_arguments_window_argument)]
    fn two_arguments(&mut self, b: Binary, left: usize, context: Context) -> Result<Call, Breach>
        ensures { Does (arguments_way self.old.scope.now (Function.Binary b) left (is_inside context)) self.old result self.new }
    {
        let first = self.measure(left, context)?;
        self.punctuation(Punctuation::Comma)?;
        let second = self.measure(left, context)?;
        Ok(Call {
            part: Part::Binary(b, first.at),
            bound: b.bound(first.bound, second.bound),
        })
    }

    #[cycle(arguments_call_measure_one_argument_two_arguments_window_argument)]
    fn window_argument(&mut self, s: Statistic, left: usize) -> Result<Call, Breach>
        ensures answer { (inside : Bool) → Follows (arguments_way self.old.scope.now (Function.Statistic s) left inside) (view self.old) result (view self.new) }
        ensures balance { OnOk result (Balanced self.old self.new) }
    {
        let window = self.window()?;
        let argument = self.measure(left, Context::Window)?;
        Ok(Call {
            part: Part::Over(s, window),
            bound: s.bound(argument.bound),
        })
    }

    // The arguments of a function, behind their opening bracket, inside which so many nestings are left.
    #[cycle(arguments_call_measure_one_argument_two_arguments_window_argument)]
    fn arguments(
        &mut self,
        function: Function,
        left: usize,
        context: Context,
    ) -> Result<Call, Breach>
        ensures { Does (arguments_way self.old.scope.now function left (is_inside context)) self.old result self.new }
    {
        match function {
            Function::Unary(u) => self.one_argument(u, left, context),
            Function::Binary(b) => self.two_arguments(b, left, context),
            Function::Statistic(s) => self.window_argument(s, left),
        }
    }

    // The token at hand is this function's name.
    #[cycle(arguments_call_measure_one_argument_two_arguments_window_argument)]
    fn call(&mut self, function: Function, left: usize, context: Context) -> Result<Operand, Breach>
        requires { AtToken self.old }
        ensures { Does (call_way self.old.scope.now function left (is_inside context)) self.old result self.new }
    {
        let name = self.token.at();
        self.bring()?;
        self.advance();
        self.opening(left)?;
        let call = self.arguments(function, left - 1, context)?;
        let bound = self.ending(name, call.bound)?;
        let at = self.write(call.part);
        Ok(Operand { at, bound })
    }

    // A measure, where so many nestings are left. The nesting left is a parameter, since it falls at each call.
    #[cycle(arguments_call_measure_one_argument_two_arguments_window_argument)]
    pub(super) fn measure(&mut self, left: usize, context: Context) -> Result<Operand, Breach>
        ensures { Does (measure_way self.old.scope.now left (is_inside context)) self.old result self.new }
    {
        match self.token.word() {
            Word::Numeral(sign, magnitude) => self.numeral(sign, magnitude),
            Word::Variable(name) => self.variable(name),
            Word::Unary(u) => self.call(Function::Unary(u), left, context),
            Word::Binary(b) => self.call(Function::Binary(b), left, context),
            Word::Statistic(s) => match context {
                Context::Formula => self.call(Function::Statistic(s), left, context),
                Context::Window => Err(self.breach(Rule::Grammar)),
            },
            _ => Err(self.breach(Rule::Grammar)),
        }
    }
}
