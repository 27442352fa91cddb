// Filters built and asked (src/sync/bloom.rs). A hash sets max(1, p) bits of the field, p being the filter's number of probes. It is contained if
// none of them is clear.
#![tactic(auto)]

pub mod build;
pub mod contains;
pub mod probes;
