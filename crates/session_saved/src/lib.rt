// Saved states, written and read (`State::encode` and `State::decode` of src/sync/state.rs).
//
// A type byte and the shared heads are all that is kept of a session between connections. Reading gives a fresh session with those heads,
// which are copied into the buffer that is lent for them; in writing and reading alike a refusal leaves the lent buffer as it was.
#![tactic(auto)]

pub mod saved;
