// What is sent to a peer: the hashes it needs, and those that none of its filters has (`get_hashes_to_send` of src/sync.rs).
//
//   rows      a ── b ── d      S: b and d (see the crate `send_members`)
//             └─── c ──┘      need: c          answer: c, b, d
//
// What is sent is chosen as marks, one for each need and one for each row, and counted, before anything is put: no list of hashes is kept aside.
#![tactic(auto)]

pub mod chosen;
pub mod to_send;
