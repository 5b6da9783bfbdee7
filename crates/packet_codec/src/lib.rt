// Packets: what a frame carries, read and written against a ring.
#![tactic(auto)]

pub mod fields;
pub mod packet;
pub mod reading;
pub mod writing;
