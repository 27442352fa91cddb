// Lists of hashes beside each other: whether two are equal, and whether a list or a table has a hash.
#![tactic(auto)]

pub mod compare;
