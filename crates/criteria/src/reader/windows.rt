// Windows: two numerals between brackets.
ghost use Rattle.criteria.specs.States.{Does};
ghost use Rattle.criteria.specs.Ways.{moment_way, window_behind_way, window_way};

use super::super::fault::{Breach, Rule};
use super::Reader;
use parts::Window;
use tokens::{Punctuation, Sign, Word};

// The largest magnitude of a numeral.
pub(super) const LARGEST_NUMERAL: u64 = 1_000_000_000;

impl<'t> Reader<'t> {
    // A numeral of a window, no less than the one before it.
    fn moment(&mut self, least: u64) -> Result<u64, Breach>
        ensures { Does (moment_way least) self.old result self.new }
    {
        let Word::Numeral(Sign::Unsigned, moment) = self.token.word() else {
            return Err(self.breach(Rule::Grammar));
        };
        if moment > LARGEST_NUMERAL {
            return Err(self.breach(Rule::Limit));
        }
        if least > moment {
            return Err(self.breach(Rule::Order));
        }
        self.advance();
        Ok(moment)
    }

    // A window behind its first numeral.
    fn window_behind(&mut self, first: u64) -> Result<Window, Breach>
        ensures { Does (window_behind_way first) self.old result self.new }
    {
        self.punctuation(Punctuation::Comma)?;
        let last = self.moment(first)?;
        self.punctuation(Punctuation::CloseWindow)?;
        Ok(Window { first, last })
    }

    pub(super) fn window(&mut self) -> Result<Window, Breach>
        ensures { Does window_way self.old result self.new }
    {
        self.punctuation(Punctuation::OpenWindow)?;
        let first = self.moment(0)?;
        self.window_behind(first)
    }
}
