// What a unit says next (`generate_sync_message` of src/sync.rs), over a session and the lists that are lent with it.
//
//   checked ─→ counted: need, heads, have, body, sent ─→ decided on the numbers: refused, silent, reset or says ─→ put: what was decided
//
// Everything is tested on marks and numbers, the room too; what is lent is written last, all of it or nothing.
#![tactic(auto)]

pub mod check;
pub mod plan;
