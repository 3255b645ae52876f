// Run files fed into recorders, one record at a time.
#![tactic(auto)]

// Why a record is not fed, through all layers.
mod fault;
// One record fed.
mod feeding;

pub use fault::{Cause, RunFault};
pub use feeding::feed_record;
