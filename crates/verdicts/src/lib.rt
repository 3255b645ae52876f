// What a criterion says of a run: verdicts, and the meaning that they have.
#![tactic(auto)]

// Verdicts, their bytes and their words.
mod verdict;
// The truth tables of the connectives.
mod tables;

pub use verdict::{Verdict, cell};
