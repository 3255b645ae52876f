// Changes as a recorder: the store over their layout.
ghost use Rattle.std.specs.Prelude.{◌≡◌, length, pos};
ghost use Rattle.runs.specs.Feeding.{after, answer, fed};
ghost use Rattle.runs.specs.Offers.{told};
ghost use Rattle.runs.specs.Shapes.{begun};
ghost use Rattle.stores.specs.Filled.{over};
ghost use Rattle.stores.specs.Recorded.{cells_in, store_led};
ghost use Rattle.changes.specs.ChangeRuns.{cells_of, free_in, left_in, meaning_of, need_in, refusal_by, written_in};
ghost use Rattle.changes.specs.Coding.{change_coding};
ghost use Rattle.changes.specs.Encoding.{change_largest};

use super::layout::ChangeLayout;
use runs::{Call, Mark, Offer, Recorder, Refusal, Shape};
use stores::{Layout, Store};

// A recorder that keeps what changes.
// A struct and no alias of the store: in an impl for every layout no proof sees the value of a constant, so none would hold `LARGEST` there.
#[derive(Drop)]
pub struct Changes<'a> {
    store: Store<'a, ChangeLayout>,
}

impl<'a> Changes<'a> {
    // An open run without states, whose shape is the lawful one nearest to `shape`. No cell changes.
    pub fn start(cells: &'a mut [i32], shape: Shape) -> Changes<'a>
        ensures meaning { meaning_of result ≡ begun shape }
        ensures free { free_in result ≡ length cells.old }
        ensures cells { cells_of result ≡ cells.old }
        ensures place { result.store.cells.ghost_name ≡ cells.entry.ghost_name }
    {
        Changes {
            store: Store::start(cells, shape),
        }
    }
}

impl Changes<'_> {
    // Carries out the calls, refused ones among them, on a run that starts in these cells, and says how many states are kept.
    // The cells then hold exactly these states, and behind them what they held before.
    pub fn record(cells: &mut [i32], shape: Shape, calls: &[Call<'_>]) -> usize
        ensures answer { result ≡ length (store_led change_coding (length cells.old) calls.now (begun shape)).run.states }
        ensures cells { cells.new ≡ over (cells_in change_coding (store_led change_coding (length cells.old) calls.now (begun shape))) cells.old }
    {
        Store::<ChangeLayout>::record(cells, shape, calls)
    }
}

// Questions are passed on one by one, since an impl of a trait has each method.
impl<'a> Recorder for Changes<'a> {
    const LARGEST: i64 = ChangeLayout::LARGEST;

    ghost largest = { change_largest };

    ghost meaning = { meaning_of };

    ghost room = { free_in };

    ghost price = { need_in };

    ghost cells = { cells_of };

    ghost written = { written_in };

    ghost place = { λ x. x.store.cells.ghost_name };

    ghost sound = { λ x. ⟦<Store<'a, ChangeLayout> as Recorder>⟧.sound x.store };

    ghost priced = { λ x. ⟦<Store<'a, ChangeLayout> as Recorder>⟧.priced x.store };

    fn largest_magnitude() -> i64
        ensures { result ≡ pos change_largest }
    {
        Self::LARGEST
    }

    fn shape(&self) -> Shape {
        self.store.shape()
    }

    fn count(&self) -> usize {
        self.store.count()
    }

    fn mark(&self) -> Mark {
        self.store.mark()
    }

    fn free(&self) -> usize {
        self.store.free()
    }

    fn need(&self, offer: Offer<'_>) -> usize {
        self.store.need(offer)
    }

    fn stay(&self, i: usize) -> Option<u64> {
        self.store.stay(i)
    }

    fn value(&self, i: usize, v: usize) -> Option<i64> {
        self.store.value(i, v)
    }

    // The clauses of every recorder, and that the free cells fall by what the state needs.
    fn feed(&mut self, offer: Offer<'_>) -> Result<(), Refusal>
        ensures answer { result ≡ answer (refusal_by self.old (told offer.entry)) }
        ensures after { meaning_of self.new ≡ fed (refusal_by self.old (told offer.entry)) (told offer.entry) (meaning_of self.old) }
        ensures cells { cells_of self.new ≡ after (refusal_by self.old (told offer.entry)) (cells_of self.old) (written_in self.old (told offer.entry)) }
        ensures place { self.new.store.cells.ghost_name ≡ self.old.store.cells.ghost_name }
        ensures free { free_in self.new ≡ after (refusal_by self.old (told offer.entry)) (free_in self.old) (left_in self.old (told offer.entry)) }
    {
        self.store.feed(offer)
    }

    fn close(&mut self) -> Result<(), Refusal> {
        self.store.close()
    }
}
