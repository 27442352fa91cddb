// Exported calls of the crates `bloom` and `bloom_probe`.
#![tactic(auto)]

pub mod answer;
pub mod calls;
