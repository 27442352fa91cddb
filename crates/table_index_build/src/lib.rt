// An index of a change table built, and extended by the table's last row.
//
//   rows 0 to 2   c a d      index   1 0 2
//   row 3         b          index   1 3 0 2      behind as many as have a lower hash
//
// Either is made in memory of the call's own, and is the order of the rows by which the table is checked.
#![tactic(auto)]

pub mod build;
pub mod extend;
