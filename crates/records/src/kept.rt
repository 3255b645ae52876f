// The first fields of a record.
ghost use Rattle.std.specs.Prelude.{◌≡◌, ◌+◌, ◌^◌, ◌<◌, drop, length};
ghost use Rattle.std.specs.List.{slice_get};
ghost use Rattle.records.specs.Firsts.{kept_fields, none, with_one};
ghost use Rattle.records.specs.Told.{firsts};

use super::fault::Position;

// How many fields of a record are kept: the stay, or its name, and 16 more.
pub(crate) const KEPT: usize = 17;

// What the first fields of a record say and where they stand, where the record begins, and how many fields it has in all.
// Two arrays, and not one of pairs, since a record lends its numbers as one slice; fixed ones, since the reader allocates nothing and a record is Copy.
#[derive(Clone, Copy)]
pub struct Kept<T> {
    pub at: Position,
    pub count: usize,
    values: [T; KEPT],
    places: [Position; KEPT],
}

impl<T: Copy> Kept<T> {
    pub(crate) fn new(at: Position, filler: T) -> Kept<T>
        ensures { firsts result ≡ none at }
    {
        Kept {
            at,
            count: 0,
            values: [filler; KEPT],
            places: [at; KEPT],
        }
    }

    // What the kept fields say.
    pub(crate) fn values(&self) -> &[T]
        ensures { result.now ≡ (firsts self.now).values }
    {
        let values: &[T] = &self.values;
        &values[..self.count.min(values.len())]
    }

    // What the kept fields behind the first say.
    pub(crate) fn rest(&self) -> &[T]
        ensures { result.now ≡ drop 1 (firsts self.now).values }
    {
        match self.values() {
            [] => &[],
            [_, rest @ ..] => rest,
        }
    }

    // Where a kept field stands.
    pub(crate) fn place(&self, i: usize) -> Option<Position>
        ensures { result ≡ slice_get (firsts self.now).places i }
    {
        let places: &[Position] = &self.places;
        places[..self.count.min(places.len())].get(i).copied()
    }

    // How many fields have room here. As slices the arrays tell their lengths to the proof.
    fn room(&self) -> usize
        ensures room { result ≡ kept_fields }
        ensures values { length self.now.values ≡ kept_fields }
        ensures places { length self.now.places ≡ kept_fields }
    {
        let values: &[T] = &self.values;
        let places: &[Position] = &self.places;
        values.len().min(places.len())
    }

    // A count below 2^64 is required and no invariant: the bytes bound it, which are the reader's.
    pub(crate) fn keep(&mut self, value: T, place: Position)
        requires { self.old.count + 1 < 2 ^ 64 }
        ensures { firsts self.new ≡ with_one (firsts self.old) value place }
    {
        let i = self.count;
        if i < self.room() {
            self.values[i] = value;
            self.places[i] = place;
        }
        self.count = i + 1;
    }
}
