// What a message changes in a session (`receive_sync_message` of src/sync.rs), part by part: flags, heads sent last and sent hashes. The shared heads
// have a crate of their own.
#![tactic(auto)]

pub mod flags;
pub mod heads;
pub mod left;
