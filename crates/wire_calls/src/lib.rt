// Exported calls of the crates `rules` and `wire`. Thin, so that nothing is decided here.
#![tactic(auto)]

pub mod answer;
pub mod calls;
pub mod limits;
