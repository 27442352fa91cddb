// How many bytes a message has that is written from its parts, with every test of them: what `message_write` asks before it puts a byte.
#![tactic(auto)]

pub mod size;
