// The waiting rows that are asked: those of a list of hashes, and those that an asked row asks for.
//
// Two functions in a cycle, one for a change and one for the list of a change, lend each other the marks of the rows that were asked. They carry the
// waiting rows, their order and the marks, and nothing of what is found on the way, so that a level of the cycle takes little stack.
#![tactic(auto)]

pub mod ask;
