// A plan for a session and tables that have been checked: counted, decided on the numbers, put.
#![tactic(auto)]

pub mod make;
