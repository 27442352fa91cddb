// The haves of a message laid out as a session keeps them (`their_have` of src/sync.rs): records in one buffer, their bytes in another.
#![tactic(auto)]

pub mod haves;
