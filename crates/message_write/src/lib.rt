// A message written from its parts (`Message::encode` of src/sync.rs).
//
// One function learns the size and makes every test, one puts the bytes: after a refusal nothing has changed. Hash lists are lent as bytes,
// haves as the words of their records over one buffer, chunks as their bytes one after the other and their lengths.
#![tactic(auto)]

pub mod encode;
pub mod put;
