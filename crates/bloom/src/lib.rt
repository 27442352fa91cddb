// Filters read and written (src/sync/bloom.rs): a summary of hashes that never says no to one that was added, and now and then says yes to
// another. And a have as numbers, whose filter is one of them.
//
//     number of entries n, bits per entry b, probes p, then the bit field of n * b / 8 bytes, rounded up
#![tactic(auto)]

pub mod have;
pub mod parse;
pub mod rule;
pub mod setting;
pub mod to_bytes;
