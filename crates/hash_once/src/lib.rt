// Hashes that stand each once, ascending, at the start of a list: they are put in order there, and those of marked rows are merged with them. How many
// they will be, alone or with others, can be counted before.
//
//   list     b d │ a c b       the first two stand in order, a is next
//            a b d │ c b       a goes to its place, and those from there on one up
//
//   list     d b c b │ a       of more than a few the places are counted: 3 1 2 1 and 0
//            b b c d │ a       d goes to its place; a b stays at the first, since one is at its own
//            a b c d │ a       those behind are copied to theirs
//
//   rows     a e               a and e are marked
//   list     b d │ . .         e is the greatest of what is left, and goes last
//            b d │ . e         then d, b and a, so that nothing is written over before it is read
//            a b d e
//
// All of it is done in place, since a list of hashes is too much to have twice.
#![tactic(auto)]

pub mod count;
pub mod insert;
pub mod merge;
pub mod order;
pub mod rank;
