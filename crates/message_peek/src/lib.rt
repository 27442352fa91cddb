// What heads a message brings, answered from its first part alone.
//
//     42 or 43, heads | need, haves, chunks, flags
//
// Nothing behind the heads is looked at, so what it costs grows with the heads, and a message that is bad further on is answered too. The stage
// that reads the heads is the one that the full read begins with; the two can't differ.
#![tactic(auto)]

pub mod peek;
