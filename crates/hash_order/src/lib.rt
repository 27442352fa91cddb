// Hashes in their order: compared by ascending bytes, and put.
//
// Here stands also what is said of lists of hashes without bytes (members, each once, ascending), and what is reached over steps.
#![tactic(auto)]

pub mod hashes;
pub mod word;
