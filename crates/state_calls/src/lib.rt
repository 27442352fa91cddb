// Exported calls of the crates `session_state`, `session_check` and `session_saved`. A session passes as sixteen words.
#![tactic(auto)]

pub mod answer;
pub mod calls;
