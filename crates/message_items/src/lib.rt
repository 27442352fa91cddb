// The haves and the chunks of a message, read: items one after the other behind their count.
//
// A list is walked whole first, for the next place or the refusal. Its words are put only by a second walk, once the rest of the message is known
// to be good.
#![tactic(auto)]

pub mod chunks;
pub mod haves;
