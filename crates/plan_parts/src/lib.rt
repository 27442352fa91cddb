// What a plan is counted from: the need, the rows of the have's filter, the body, the sent hashes and silence (`generate_sync_message` of src/sync.rs), as
// marks and numbers. Nothing that is lent is written here, so a plan can still be refused.
#![tactic(auto)]

pub mod body;
pub mod have;
pub mod need;
pub mod sent;
pub mod silence;
