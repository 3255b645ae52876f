// What a recorder is: anything that means a run.
ghost use Rattle.std.specs.Prelude.{◌≡◌, ℕ, List, length, ℤ, pos};
ghost use Rattle.runs.specs.Runs.{Meaning, Sound, stay_at, value_at};
ghost use Rattle.runs.specs.Offers.{Offered, told};
ghost use Rattle.runs.specs.Feeding.{Priced, feed_refusal, close_refusal, fed, closed, answer, after};

use super::offer::Offer;
use super::refusal::Refusal;
use super::shape::{Mark, Shape};

pub trait Recorder {
    // The largest magnitude of a value that the kind keeps.
    const LARGEST: i64;

    ghost largest: { ℕ };

    ghost meaning: { Self → Meaning };

    // The cells that are free, and those that an offered state would need.
    ghost room: { Self → ℕ };

    ghost price: { Self → Offered → ℕ };

    // The caller's cells, what they hold once an offered state is taken, and the name under which the caller finds them again.
    ghost cells: { Self → List ℤ };

    ghost written: { Self → Offered → List ℤ };

    ghost place: { Self → ℕ };

    // What every recorder keeps.
    ghost sound: { (x : Self) → Sound largest (meaning x) };

    ghost priced: { (x : Self) → Priced (meaning x).run.shape largest (price x) };

    // `LARGEST`, which a contract can't name where the recorder's type has a lifetime.
    fn largest_magnitude() -> i64
        ensures { result ≡ pos largest };

    fn shape(&self) -> Shape
        ensures { result ≡ (meaning self.now).run.shape };

    // How many states are kept.
    fn count(&self) -> usize
        ensures { result ≡ length (meaning self.now).run.states };

    fn mark(&self) -> Mark
        ensures { result ≡ (meaning self.now).run.mark };

    // How many cells are free.
    fn free(&self) -> usize
        ensures { result ≡ room self.now };

    // How many cells this state would need: none where no run of this shape takes it.
    fn need(&self, offer: Offer<'_>) -> usize
        ensures { result ≡ price self.now (told offer.entry) };

    // A state and a variable by their numbers, and no struct of both: they are what is asked.
    fn stay(&self, i: usize) -> Option<u64>
        ensures { result ≡ stay_at (meaning self.now).run.states i };

    fn value(&self, i: usize, v: usize) -> Option<i64>
        ensures { result ≡ value_at (meaning self.now).run.states i v };

    // Takes one state more, or refuses it and changes nothing.
    // What refuses it is `refusal_by` of specs/, which takes this trait's members, so that its own clauses can't name it.
    fn feed(&mut self, offer: Offer<'_>) -> Result<(), Refusal>
        ensures answer { result ≡ answer (feed_refusal largest (room self.old) (price self.old (told offer.entry)) (meaning self.old) (told offer.entry)) }
        ensures after { meaning self.new ≡ fed (feed_refusal largest (room self.old) (price self.old (told offer.entry)) (meaning self.old) (told offer.entry)) (told offer.entry) (meaning self.old) }
        ensures cells { cells self.new ≡ after (feed_refusal largest (room self.old) (price self.old (told offer.entry)) (meaning self.old) (told offer.entry)) (cells self.old) (written self.old (told offer.entry)) }
        ensures place { place self.new ≡ place self.old };

    // Ends the run, or refuses and changes nothing.
    fn close(&mut self) -> Result<(), Refusal>
        ensures answer { result ≡ answer (close_refusal (meaning self.old)) }
        ensures after { meaning self.new ≡ closed (meaning self.old) }
        ensures cells { cells self.new ≡ cells self.old }
        ensures place { place self.new ≡ place self.old };
}
