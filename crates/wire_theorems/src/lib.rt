// What a station sends, every other member reads as that frame, and what is in the store stays there: theorems, no code.
#![tactic(auto)]
