// One station of the ring: its rules, by value, over ring positions. No address and no octet is known here.
#![tactic(auto)]

pub mod rules;
pub mod station;
