// Tests of runs told by their changes. Every expected value is worked out by hand.
#![tactic(auto)]

// A shape, and what is told of a run.
#[cfg(test)]
mod told;

// The cells that states fill, and how they are read back.
#[cfg(test)]
mod cells;
// States that are refused, and runs that fill up.
#[cfg(test)]
mod refused;
// States around those from which the walk to a state begins.
#[cfg(test)]
mod waypoints;
