// A recorder that is lent is one too, so that a view can stand over a recorder that its owner keeps.
ghost use Rattle.std.specs.Prelude.{◌≡◌, pos};

use super::offer::Offer;
use super::recorder::Recorder;
use super::refusal::Refusal;
use super::shape::{Mark, Shape};

// Questions are passed on one by one, since an impl of a trait has each method.
impl<'a, R: Recorder> Recorder for &'a mut R {
    const LARGEST: i64 = R::LARGEST;

    ghost largest = { R.Recorder.largest };

    ghost meaning = { λ x. R.Recorder.meaning x.now };

    ghost room = { λ x. R.Recorder.room x.now };

    ghost price = { λ x. R.Recorder.price x.now };

    ghost cells = { λ x. R.Recorder.cells x.now };

    ghost written = { λ x. R.Recorder.written x.now };

    ghost place = { λ x. R.Recorder.place x.now };

    ghost sound = { λ x. R.Recorder.sound x.now };

    ghost priced = { λ x. R.Recorder.priced x.now };

    fn largest_magnitude() -> i64
        ensures { result ≡ pos R.Recorder.largest }
    {
        R::largest_magnitude()
    }

    fn shape(&self) -> Shape {
        (**self).shape()
    }

    fn count(&self) -> usize {
        (**self).count()
    }

    fn mark(&self) -> Mark {
        (**self).mark()
    }

    fn free(&self) -> usize {
        (**self).free()
    }

    fn need(&self, offer: Offer<'_>) -> usize {
        (**self).need(offer)
    }

    fn stay(&self, i: usize) -> Option<u64> {
        (**self).stay(i)
    }

    fn value(&self, i: usize, v: usize) -> Option<i64> {
        (**self).value(i, v)
    }

    fn feed(&mut self, offer: Offer<'_>) -> Result<(), Refusal> {
        (**self).feed(offer)
    }

    fn close(&mut self) -> Result<(), Refusal> {
        (**self).close()
    }
}
