// Demand 3, how long a message waits: theorems, no code.
#![tactic(auto)]
