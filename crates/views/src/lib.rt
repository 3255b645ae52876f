// Late views: the run of any recorder without its first states.
#![tactic(auto)]

// The views.
mod views;

pub use views::Late;
