// What the rule of acknowledgement gives: theorems, no code.
#![tactic(auto)]
