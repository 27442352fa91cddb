// The static library: the calls that C and other languages see, under their plain names. Each calls the function of its own name in a crate
// NAME_calls, where a comment says what it does, and promises the same in the same clauses. Nothing is decided here.
#![tactic(auto)]

mod bloom_exports;
mod counts_exports;
mod message_exports;
mod offer_exports;
mod pick_exports;
mod plan_exports;
mod receive_exports;
mod salvage_exports;
mod send_exports;
mod settings_exports;
mod state_exports;
mod table_exports;
mod wire_exports;
