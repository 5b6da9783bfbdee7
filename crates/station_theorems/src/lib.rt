// What holds of the station's rules: theorems about the definitions of the crate station. There is no code.
#![tactic(auto)]
