// Two sessions that speak in turn are the catch-up walk of the crate `walk`: specs/Talk.antt has the talk through bytes, what is granted of it and theorem
// 2, specs/Passing.antt what a station passes when it answers, a pick or none, and the walk of such rounds; proofs/ has the theorem, its corollary and an
// example that meets what is granted. Nothing runs here.
#![tactic(auto)]
