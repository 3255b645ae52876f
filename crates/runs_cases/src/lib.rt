// Tests of recorders and of run files fed into them. Every expected value is worked out by hand.
#![tactic(auto)]

// Two shapes, and calls with each refusal as its number.
#[cfg(test)]
mod numbered;
// Tables of calls, with what is answered and seen.
#[cfg(test)]
mod steps;
// A recorder of another kind than rows.
#[cfg(test)]
mod nocells;

// The shapes that a run can have, and how it starts.
#[cfg(test)]
mod shapes;
// States that are taken and refused, and the cells then.
#[cfg(test)]
mod feeding;
// Runs that fill up.
#[cfg(test)]
mod filling;
// Runs that are closed, and calls as data.
#[cfg(test)]
mod closing;
// Questions, past the end too.
#[cfg(test)]
mod questions;

// Late views of a run.
#[cfg(test)]
mod late;
// Late views of late views.
#[cfg(test)]
mod piles;

// Records fed from a file, with each fault as its state, number and place.
#[cfg(test)]
mod faults;
// One record of a file, fed or refused.
#[cfg(test)]
mod one_record;
// Files read record by record, past refusals and to their ends.
#[cfg(test)]
mod whole_files;
