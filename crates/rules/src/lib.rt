// The rules that everything else cites: how large things may be, the numbered refusals, and a hash as a value.
//
// Document 01 gives each limit and each refusal once; so does this crate. A limit stands as a constant in `sizes` and in the
// definition `sizes` of specs/, and `limits` is proved to give the same numbers.
#![tactic(auto)]

pub mod little_endian;
pub mod passed;
pub mod put;
pub mod refusal;
pub mod sizes;
pub mod zeros;
