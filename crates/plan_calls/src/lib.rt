// Exported calls of the crate `plan`. A session passes as sixteen words with its seven lists.
#![tactic(auto)]

pub mod answer;
pub mod calls;
pub mod plan_picked;
pub mod plan_settled;
pub mod plan_with;
