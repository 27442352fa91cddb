// A salvaged unit catches up (M-109): where each kept row is a row of the station's table, the salvaged table is a dependency-closed part of it, so that demand
// 3 holds of the two. Nothing runs here.
#![tactic(auto)]
