// Two hosts that make the exported calls in turn: specs/Demand.antt, to be opened first, has demand 3 whole; Memory has what a host keeps and lends, Calls the
// talk of calls, States what the calls state, Contracts that this is what the calls' own contracts say. proofs/ shows it. Nothing runs here.
#![tactic(auto)]
