// What the reader of run files answers on examples, each worked out by hand from the rules of the format.
#![tactic(auto)]

// Readings that a test expects to be answered, or to be refused.
#[cfg(test)]
mod expect;
// Numerals alone.
#[cfg(test)]
mod numerals;
// The fields of a file, one after the other.
#[cfg(test)]
mod cells;
// Headers that are refused, and what a header says.
#[cfg(test)]
mod headers;
// Data records that are refused.
#[cfg(test)]
mod refused_records;
// What data records say.
#[cfg(test)]
mod data_records;
// Whole files: small ones read to their end, and the longest.
#[cfg(test)]
mod files;
