// Messages that fit the radio (02, M-110): a planner picks what goes now of a list that is to be sent, and a check accepts a pick, whoever made it.
//
//   rows     a ── b ── d      list: b, c, d; sizes 1, 2, 9, 2; budget 4
//            └─── c            pick: b, d; c is too large, and with a budget of 3 only b would go
//
// The list is marks of rows, and so is the pick: both are one pass over the table.
#![tactic(auto)]

pub mod check;
pub mod goes;
pub mod pick;
pub mod radio;
