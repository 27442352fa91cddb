// 01's examples, P1 to P12, of the definitions that the contracts cite: specs/Examples.antt has them in one statement, proofs/ shows it. Nothing runs here.
#![tactic(auto)]
