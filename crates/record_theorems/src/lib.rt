// What holds of a station's record: theorems about the definitions of the crate records. There is no code.
#![tactic(auto)]
