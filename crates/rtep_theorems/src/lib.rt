// What holds of what C calls: theorems, no code.
#![tactic(auto)]
