// How tightly contracts bind: for each public call two results that meet its contract are equal, and so is what they leave in lent memory. Nothing runs here.
#![tactic(auto)]
