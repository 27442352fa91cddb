// Two hosts with news at both ends make the exported calls in turn (M-111): specs/CallsEnds.antt has the talk of calls and what is shown of it, over what the crate
// `walk_hosts` says of one call; specs/NewsAtBothEnds.antt, to be opened first, has M-111 whole. Nothing runs here.
#![tactic(auto)]
