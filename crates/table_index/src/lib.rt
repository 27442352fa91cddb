// The index of a change table: row numbers in ascending order of hash, two bytes each, lent beside the table.
//
//   rows      0: c    1: a    2: d    3: b      (by their hashes)
//   index     1       3       0       2
//
// One that fits is the table's index, so what is looked up by it is what the scan finds; one that doesn't is noticed before any row is.
#![tactic(auto)]

pub mod fit;
pub mod look;
