// How a state is written, and what is known of the last one.
ghost use Rattle.std.specs.Prelude.{◌≡◌, ◌+◌, ◌<◌, ◌≤◌, true, length, take, pos, slice_index_or, unsigned_abs};
ghost use Rattle.runs.specs.Feeding.{all_within};
ghost use Rattle.stores.specs.Filled.{over};
ghost use Rattle.changes.specs.Encoding.{change_largest, change_of, changes, encoded};

use super::ChangeLayout;
use crate::change::Change;
use runs::Offer;
use stores::fill;

impl ChangeLayout {
    // The cell that tells that variable v has this value now, unless it had it before.
    fn change(&self, v: usize, value: i64) -> Option<i32>
        requires variable { v < 16 }
        requires value { unsigned_abs value ≤ change_largest }
        ensures { result ≡ change_of v value (slice_index_or self.now.last v (pos 0)) }
    {
        if value == i64::from(self.last[v]) {
            return None;
        }
        let change = Change {
            variable: v,
            value: value as i32,
        };
        Some(i32::from(change))
    }

    // How many variables these values would change. That there are at most 16 is required here and below: the shape says it, which is the store's.
    pub(super) fn changed(&self, values: &[i64]) -> usize
        requires { length values.now ≤ 16 }
        ensures { result ≡ length (changes 0 values.now (take (length values.now) self.now.last)) }
    {
        // A loop: a chain of `zip`, `filter` and `count` took about twice the time, and a feed counts twice.
        let mut changed = 0;
        for (v, value) in values.iter().enumerate() {
            if *value != i64::from(self.last[v]) {
                changed += 1;
            }
        }
        changed
    }

    // Fills the first free cells with a state.
    pub(super) fn write(&self, free: &mut [i32], offer: Offer<'_>)
        requires few { length offer.values.now ≤ 16 }
        requires stay { unsigned_abs offer.stay ≤ 100000 }
        requires values { all_within change_largest offer.values.now ≡ true }
        requires room { 2 + length (changes 0 offer.values.now (take (length offer.values.now) self.now.last)) ≤ length free.old }
        ensures { free.new ≡ over (encoded offer.entry.stay offer.entry.values.now (take (length offer.entry.values.now) self.now.last)) free.old }
    {
        free[0] = offer.stay as i32;
        free[1] = self.changed(offer.values) as i32;
        // Tried as a loop over `enumerate().filter_map(..).enumerate()`: what `change` requires at each value, and that the next place is free, stayed open.
        let mut at = 2;
        for (v, value) in offer.values.iter().enumerate() {
            if let Some(cell) = self.change(v, *value) {
                free[at] = cell;
                at += 1;
            }
        }
    }

    // Notes the values of the last state.
    pub(super) fn update(&mut self, values: &[i64])
        requires few { length values.now ≤ 16 }
        requires values { all_within change_largest values.now ≡ true }
        ensures last { take (length values.now) self.new.last ≡ values.now }
        ensures waypoints { self.new.waypoints ≡ self.old.waypoints }
    {
        fill(&mut self.last, values);
    }
}
