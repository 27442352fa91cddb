// The members of S: candidates that every filter misses, and the candidates that depend on one, directly or not.
//
//   rows      a ── b ── d      last-sync of the haves: a      candidates: b, c, d
//             └─── c ──┘      no filter has b                S: b, and d, which depends on it
//
// Hash sets and the stack of the Rust are marks, one for each row: rows below the last-sync hashes, and members of S. A row's dependencies
// stand before it, so one pass upward finds every member.
#![tactic(auto)]

pub mod members;
