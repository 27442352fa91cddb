// The exported call of the crate `receive`. A session passes as sixteen words with its seven lists.
#![tactic(auto)]

pub mod answer;
pub mod calls;
