// The catch-up walk where messages fit the radio (M-110): each reply is a pick that the check accepts, so that demand 3 stays where every change is within the
// budget. Nothing runs here.
#![tactic(auto)]
