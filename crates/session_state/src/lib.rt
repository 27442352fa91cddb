// The state of a session with a peer (src/sync/state.rs), and read-only mode.
//
// A session is a struct by value, of its flags and the counts of its lists. The lists themselves are lent: each is the first hashes of a
// buffer. What the peer said last may be absent, which isn't the same as empty. With the lists that are lent beside it the struct is a
// session as a value (specs/Value), which is what the rules speak of.
#![tactic(auto)]

pub mod session;
