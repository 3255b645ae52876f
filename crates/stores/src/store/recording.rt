// Lists of calls in stores.
ghost use Rattle.std.specs.Prelude.{◌≡◌, length};
ghost use Rattle.runs.specs.Shapes.{begun};
ghost use Rattle.stores.specs.Filled.{over};
ghost use Rattle.stores.specs.Recorded.{cells_in, store_led};
ghost use Rattle.stores.specs.Stores.{cells_of, meaning_of};

use super::Store;
use crate::Layout;
use runs::{Call, Recorder, Shape, carry_out};

impl<L: Layout> Store<'_, L> {
    // Carries out the calls, refused ones among them, on a run that starts in these cells, and says how many states are kept.
    // The cells then hold exactly these states, and behind them what they held before.
    pub fn record(cells: &mut [i32], shape: Shape, calls: &[Call<'_>]) -> usize
        ensures answer { result ≡ length (store_led L.coding (length cells.old) calls.now (begun shape)).run.states }
        ensures cells { cells.new ≡ over (cells_in L.coding (store_led L.coding (length cells.old) calls.now (begun shape))) cells.old }
    {
        let mut store = Store::<L>::start(cells, shape);
        store.carry_out_all(calls);
        let count = store.count();
        // Taken out of the store, so that its proof knows the cells once the borrow ends.
        let Store { cells: _filled, .. } = store;
        count
    }

    fn carry_out_all(&mut self, calls: &[Call<'_>])
        requires { cells_of self.old ≡ over (cells_in L.coding (meaning_of self.old)) (cells_of self.old) }
        ensures after { meaning_of self.new ≡ store_led L.coding (length (cells_of self.old)) calls.now (meaning_of self.old) }
        ensures cells { cells_of self.new ≡ over (cells_in L.coding (meaning_of self.new)) (cells_of self.old) }
        ensures place { self.new.cells.ghost_name ≡ self.old.cells.ghost_name }
    {
        for call in calls {
            let _ = carry_out(self, *call);
        }
    }
}
