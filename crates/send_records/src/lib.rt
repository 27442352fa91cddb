// Haves handed on as one lent list of records, for the selection of what is sent.
//
//     summaries   │ have │ have │ ..        a record a have, by name
//     words       │ 7    │ 7    │ ..        what the selection takes
//
// The records of a lent list are read one after the other and laid as words, in an array with room for one have more than a list may have: so a
// list that is too long is seen to be. The selection is the one on words.
#![tactic(auto)]

pub mod laid;
pub mod summary;
pub mod to_send;
