// A plan for a session and tables that have been checked, counted: marks and numbers, on which it is decided. Nothing that is lent is written.
#![tactic(auto)]

pub mod carried;
pub mod count;
