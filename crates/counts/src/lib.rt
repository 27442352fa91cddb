// Counts of captures (M-108): a filter as it was heard on the air, with a change table of its sender and one of its listener.
//
//   sender     a b c d                 the filter is over rows of the sender
//   listener   a   c   e f g           tested: e f g, which the sender doesn't hold
//                        ^             contained nevertheless: f, a false yes
//
// All counts are whole numbers, and totals over many captures are their sums.
#![tactic(auto)]

pub mod bits;
pub mod count;
pub mod held;
pub mod tested;
pub mod totals;
