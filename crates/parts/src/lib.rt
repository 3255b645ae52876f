// What a criterion is made of.
#![tactic(auto)]

// Comparators, measures, prefixes, connectives, and a criterion's parts.
mod kinds;
// How large the value of a measure can be.
mod bounds;

pub use kinds::{Binary, Comparator, Connective, Part, Prefix, Quantity, Statistic, Unary, Window};
