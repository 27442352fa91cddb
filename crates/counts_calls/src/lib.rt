// Exported calls of the crate `counts`.
#![tactic(auto)]

pub mod answer;
pub mod calls;
