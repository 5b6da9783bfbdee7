// What holds of a driver's calls: theorems, no code.
#![tactic(auto)]
