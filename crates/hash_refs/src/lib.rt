// Hashes by reference: numbers of hashes that stand in lent bytes, kept in ascending order of the hashes that they name, each hash once.
//
//   list         c a        numbers 0 1
//   further      b a d      numbers 2 3 4
//   found        1 2 0 4    the hashes a b c d
//
// What is found is counted and decided on by its numbers, four bytes each, and put into a lent buffer once all is decided.
#![tactic(auto)]

pub mod found;
pub mod refs;
