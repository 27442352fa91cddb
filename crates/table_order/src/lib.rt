// Records put in ascending order of hash: their numbers, two bytes each, in runs that are merged two by two.
//
//   records       0: c    1: a    2: d    3: b      (by their hashes)
//   runs of two   1 0             3 2
//   merged        1 3 0 2
//
// However the hashes stand, each number is looked at as many times as the records can be halved.
#![tactic(auto)]

pub mod entry;
pub mod merge;
