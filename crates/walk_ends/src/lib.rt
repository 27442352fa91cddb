// Both ends have news (M-111): specs/Ends.antt has an end, a message, an exchange and what both promise, specs/Joint.antt the joint table of two tables that
// agree. That two sessions are such ends stands in the crate `walk_ends_sessions`. Nothing runs here.
#![tactic(auto)]
