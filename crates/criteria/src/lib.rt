// Criteria: from the bytes of a text to its parts, or to a number and a place.
#![tactic(auto)]

// Why a criterion is refused.
mod fault;
// Formulas that were read.
mod formula;
// What a criterion is read for.
mod scope;
// The reader of a text.
mod reader;
// Reading a criterion.
mod reading;

pub use fault::{Breach, CriterionFault, Rule};
pub use formula::Formula;
pub use reading::read;
