// A message taken or refused (`receive_sync_message` of src/sync.rs), once all parts of the session after it are computed; and the copies that then are
// made.
//
// Nothing that is lent is written before everything was tested, the room too.
#![tactic(auto)]

pub mod decide;
pub mod put;
