// A change table hurt in the field, salvaged into a new one (M-109): the rows that are kept, in order, with their numbers adjusted to where their
// dependencies stand now, and a report of the others.
//
//     hurt      a    b bad    c needs a    d needs b    e needs c
//     new       a             c needs 0                 e needs 1
//     report         1: 3                  3: 5
//
// Rows are decided first (salvage_rules), room is tested on the numbers, and only then anything is written.
#![tactic(auto)]

pub mod put;
pub mod salvage;
