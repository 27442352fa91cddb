// A reader that keeps the message and the place it has reached (`Input` of src/storage/parse.rs).
//
//     message   42 │ heads │ need │ ..
//               0    1
//
// It is thin: a message, a place and one read, which leaves the work to the readers on a slice and a place. A place behind the message's end has no
// bytes, so any place may be taken.
#![tactic(auto)]

pub mod first;
pub mod reader;
