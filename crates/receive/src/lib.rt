// What a message does to a session (`receive_sync_message` of src/sync.rs), over the session and the lists that are lent with it.
//
//   checked, read ─→ counted: what is shared, sent, said ─→ decided, on numbers alone: taken, or refused ─→ put, straight into the lists
//
// The host has loaded the message's changes before: the table is the one after loading, its first rows are those of before; the index is its own.
#![tactic(auto)]

pub mod receive;
