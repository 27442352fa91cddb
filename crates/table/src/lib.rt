// Change tables: their rows, and which of them are good by their own bytes.
//
//     change row     hash, count, the numbers of the rows that it depends on, all below its own
//
// A table is lent as bytes and checked before anything is read from it. Rows of two widths are read by the same functions.
#![tactic(auto)]

pub mod check;
pub mod row;
pub mod width;
