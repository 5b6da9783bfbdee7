// The script: reading its lines, and what each does and prints.
#![tactic(auto)]

pub mod lines;
pub mod reading;
pub mod session;
