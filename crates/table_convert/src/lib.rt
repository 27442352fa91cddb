// Change rows of one width as rows of another: the old rows, of 64 bytes, to those of today and back (M-106).
//
//     narrow    hash   count   numbers in use   zeros
//     wide      hash   count   numbers in use   zeros .. ..
//
// A row is the same bytes up to its last number in use, whatever its width; so these are copied, and zeros put behind them.
#![tactic(auto)]

pub mod convert;
pub mod put;
