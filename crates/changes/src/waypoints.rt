// Places from which to walk to a state: where every 64th state begins, and the values before it.
ghost use Rattle.std.specs.Prelude.{◌≡◌, ℕ, ◌*◌, ◌/◌, ◌<◌, if◌then◌else◌, nat_eq, pos, slice_index_or};
ghost use Rattle.changes.specs.Kept.{waypoint_at};

use runs::Shape;

// How many states lie between two waypoints, and how many waypoints there are, since a run has at most 64 times 64 states.
pub(crate) const STRIDE: usize = 64;

#[derive(Clone, Copy)]
pub(crate) struct Waypoint {
    pub(crate) place: usize,
    pub(crate) values: [i32; Shape::WIDEST],
}

// Fixed memory beside the lent cells, since there is no heap.
#[derive(Drop)]
pub(crate) struct Waypoints([Waypoint; STRIDE]);

impl Waypoints {
    pub(crate) fn new() -> Waypoints {
        let start = Waypoint {
            place: 0,
            values: [0; Shape::WIDEST],
        };
        Waypoints([start; STRIDE])
    }

    // Notes where a state begins and the values before it, if it is a 64th one.
    pub(crate) fn note(&mut self, state: usize, waypoint: Waypoint)
        requires { state < 4096 }
        ensures { (k : ℕ) → k < 64 → waypoint_at self.new.0 k ≡ (if nat_eq (64 * k) state then waypoint else waypoint_at self.old.0 k) }
    {
        if state % STRIDE == 0 {
            self.0[state / STRIDE] = waypoint;
        }
    }

    // The waypoint from which to walk to a state: the cell where it stands, and a variable's value before that.
    // Two questions, and no answer of both: a waypoint would be copied at each.
    pub(crate) fn place_before(&self, state: usize) -> usize
        requires { state < 4096 }
        ensures { result ≡ (waypoint_at self.now.0 (state / 64)).place }
    {
        self.0[state / STRIDE].place
    }

    pub(crate) fn value_before(&self, state: usize, v: usize) -> i32
        requires state { state < 4096 }
        requires variable { v < 16 }
        ensures { result ≡ slice_index_or (waypoint_at self.now.0 (state / 64)).values v (pos 0) }
    {
        self.0[state / STRIDE].values[v]
    }
}
