// What holds of every recorded day: theorems, no code.
#![tactic(auto)]
