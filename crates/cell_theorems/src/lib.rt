// Demand 3 at a driver's calls: theorems, no code.
#![tactic(auto)]
