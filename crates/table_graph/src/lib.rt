// The graph that a change table is: its heads, what lies below a list, and the rows beyond it.
//
// What is computed over the rows is kept as a mark for each row. The calls check the table; what they call wants one that has been checked.
#![tactic(auto)]

pub mod beyond;
pub mod heads;
pub mod marked;
pub mod marks;
