// Two sessions with news at both ends are the ends of the crate `walk_ends` (M-111): specs/TalkEnds.antt has the talk through bytes, message by message, what is
// granted of it and what is shown; proofs/ shows it. Nothing runs here.
#![tactic(auto)]
