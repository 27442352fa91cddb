// The check of a change table: each row by its own bytes, and no hash twice.
//
//   rows    0: c    1: a    2: c    3: b      (by their hashes)
//   order   1       3       2       0         row 2 stands before a row of the same hash: it repeats one
//
// No hash stands twice beside an index that fits. Without one the rows are put in order first, and rows of the same hash stand side by side, the
// later before the earlier. So no row is compared with all rows before it.
#![tactic(auto)]

pub mod check;
pub mod repeat;
