// What comes before a message is taken (`receive_sync_message` of src/sync.rs): the tests, and then the numbers of the session after the message, on
// which all is decided.
#![tactic(auto)]

pub mod check;
pub mod make;
