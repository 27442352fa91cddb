// The items that messages and saved states are made of beside numbers: counts, prefixed strings, hash lists.
//
//     prefixed string   number (its length), bytes
//     hash list         number (its count), hashes
//
// A reader takes a slice, the place where an item starts and the place where its part of the slice ends. It answers an enum:
// where the item stands and the next place, or the refusal. Any numbers are places; a part that isn't there has no bytes.
// A writer takes the buffer that is lent to it, and answers how many bytes it wrote at the buffer's start, or the refusal.
#![tactic(auto)]

pub mod encode;
pub mod parse;
