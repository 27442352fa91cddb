// What a message is (`Message` of src/sync.rs): its version, its flags, and, in specs/, its parts as values and as bytes.
//
//   42 or 43 | heads | need | count, haves | count, chunks | flags section, if there is one
//             a have:  last-sync hashes | filter, prefixed        a chunk: prefixed
//
// The crates `message_read` and `message_write` read and write it.
#![tactic(auto)]

pub mod flags;
pub mod version;
