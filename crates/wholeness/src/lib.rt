// Whether a station is one that the rules can come to.
#![tactic(auto)]

pub mod whole;
