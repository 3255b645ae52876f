// A worked value: the cells of a first state.
ghost use Rattle.std.specs.Prelude.{◌≡◌, [], ◌∷◌, pos};

use crate::Changes;
use runs::{Call, Offer, Shape};

// Width 2, stay 3, values 0 and 7: one variable changes, and 113 is 16 times 7 and the variable 1.
pub fn first_cells() -> [i32; 3]
    ensures { result ≡ pos 3 ∷ pos 1 ∷ pos 113 ∷ [] }
{
    let mut cells = [0; 3];
    let shape = Shape {
        width: 2,
        longest: 10,
    };
    let offer = Offer {
        stay: 3,
        values: &[0, 7],
    };
    Changes::record(&mut cells, shape, &[Call::Feed(offer)]);
    cells
}
