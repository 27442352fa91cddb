// What was decided is put, straight into the lent buffers: marked rows in index order, the filter's field where it stands in a have, and the hashes
// sent merged in place.
//
// Each part is put all or not at all: nothing of it where none is counted, so that no answer is a case of its own.
#![tactic(auto)]

mod field;
pub mod put;
