// Exported calls of the crate `send`.
#![tactic(auto)]

pub mod calls;
