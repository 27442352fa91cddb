// When a session is bad: whether its counts are good for the lists that are lent with it.
//
// Refusal 10 comes before all others, so every call that takes a session asks `session_good` first. A list's count must be within its limit
// and its hashes all lent, sent hashes must ascend, and kept haves are tested as passed ones are.
#![tactic(auto)]

pub mod good;
pub mod list;
