// Exported calls of the crate `plan_offer`. A session passes as sixteen words with its seven lists.
#![tactic(auto)]

pub mod answer;
pub mod calls;
