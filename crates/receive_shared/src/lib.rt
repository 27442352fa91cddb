// The shared heads after a message (`receive_sync_message` of src/sync.rs): counted, so that all can be decided on numbers, and put straight into the
// session's list once it is decided.
//
//   all of the message's heads are held   ─→ shared: they are copied as they stand
//   changes were loaded                   ─→ advance: all that is shared then is a row, marked, and the index has the marked ones ascending
//   else                                  ─→ join: what was shared may be no row, so its hashes are put in order in place, and the message's rows merged with them
#![tactic(auto)]

pub mod advance;
pub mod join;
pub mod shared;
