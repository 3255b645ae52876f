// What the reader of criteria answers on examples, each worked out by hand from the rules of the language.
#![tactic(auto)]

// Readings that a test expects to be accepted, or to be refused.
#[cfg(test)]
mod expect;
// Texts that are refused, by their number.
#[cfg(test)]
mod refused;
// Texts that are accepted, and how they group.
#[cfg(test)]
mod accepted;
// The longest texts, the most parts and the deepest nesting.
#[cfg(test)]
mod edges;
