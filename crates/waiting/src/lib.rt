// Waiting tables: their rows, how one is found, and when a waiting table is good beside a change table.
//
//     waiting row    hash, count, the hashes that it asks for
//
// It is lent as bytes and checked before anything is read from it, as a change table is.
#![tactic(auto)]

pub mod check;
pub mod find;
pub mod row;
