// What a pick is made of (02, M-110): the hashes to send less those that were sent, for a session and a change table, and whether the body is the document.
#![tactic(auto)]

pub mod offer;
