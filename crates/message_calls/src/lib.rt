// Exported calls of the crates `message_read`, `message_peek` and `message_write`. A message's places and numbers pass as fourteen words.
#![tactic(auto)]

pub mod calls;
pub mod message_words;
