// What a run is, and what records one: states fed one after the other, and questions about them.
#![tactic(auto)]

// The shape of a run and its mark.
mod shape;
// Why a call is refused.
mod refusal;
// A state as it is offered.
mod offer;
// Why a state is refused, told before anything is written.
mod feeding;
// What a recorder is.
mod recorder;
// A recorder that its owner lends.
mod lent;
// Calls as data.
mod calls;

pub use calls::{Call, carry_out};
pub use offer::Offer;
pub use recorder::Recorder;
pub use refusal::Refusal;
pub use shape::{Mark, Shape};
