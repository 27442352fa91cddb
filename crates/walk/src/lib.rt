// The catch-up walk and what holds of it: specs/Walk.antt has the walk and demand 3, proofs/ the theorem. That two sessions are this walk stands in the
// crate `walk_sessions`. Nothing runs here.
#![tactic(auto)]
