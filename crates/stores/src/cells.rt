// Cells that take values.
ghost use Rattle.std.specs.Prelude.{◌≡◌, ◌≤◌, true, length};
ghost use Rattle.runs.specs.Feeding.{all_within};
ghost use Rattle.stores.specs.Filled.{over};

// Fills the first cells with values that cells can hold.
pub fn fill(cells: &mut [i32], values: &[i64])
    requires room { length values.now ≤ length cells.old }
    requires values { all_within 2147483647 values.now ≡ true }
    ensures { cells.new ≡ over values.now cells.old }
{
    // By number: of what a loop over `iter_mut().zip(..)` wrote, a proof knows no element.
    for (v, cell) in cells[..values.len()].iter_mut().enumerate() {
        *cell = values[v] as i32;
    }
}
