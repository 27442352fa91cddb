// What is missing from a list of hashes: a held hash gives nothing, an unknown one gives itself, and a waiting change asks for its list.
//
// The waiting rows that are asked are marked first; then the unknown hashes of the list, and of all that these rows ask for, are found by their numbers,
// and put where they are wanted once it is known how many they are.
#![tactic(auto)]

pub mod missing;
pub mod take;
