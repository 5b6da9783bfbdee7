// What holds of every bench: theorems, no code.
#![tactic(auto)]
