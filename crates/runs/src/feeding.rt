// What a run refuses, told before anything is written.
ghost use Rattle.std.specs.Prelude.{◌≡◌, unsigned_abs};
ghost use Rattle.runs.specs.Feeding.{unlawful};
ghost use Rattle.runs.specs.Offers.{told};

use super::offer::Offer;
use super::refusal::Refusal;
use super::shape::Shape;

impl Shape {
    // Why every run of this shape refuses a state, if it does.
    // An Option and no Result: whether a state is refused is a question, which `need` asks too.
    pub fn unlawful(self, largest: i64, offer: Offer<'_>) -> Option<Refusal>
        ensures { result ≡ unlawful self (unsigned_abs largest) (told offer.entry) }
    {
        if offer.values.len() != self.width {
            return Some(Refusal::Width);
        }
        if !offer.stay_within(self.longest) {
            return Some(Refusal::Stay);
        }
        if !offer.all_within(largest.unsigned_abs()) {
            return Some(Refusal::Magnitude);
        }
        None
    }
}
