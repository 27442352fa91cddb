// Exported calls of the crates `table_check`, `table_index_build`, `table_convert`, `waiting`, `table_graph` and `waiting_missing`.
#![tactic(auto)]

pub mod calls;
