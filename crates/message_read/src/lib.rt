// A message read (`Message::decode` of src/sync.rs).
//
// Nothing is copied: what is handed back are places and counts in the caller's message. Haves and chunks go as words into lists that the caller
// lends, seven a have and two a chunk, and how many bytes were ignored in each have into a third. A message is walked whole before the first
// word is written, so a refusal leaves the lists as they were.
#![tactic(auto)]

pub mod decode;
pub mod opening;
pub mod parse;
