// A recorded day on the bench: frames may be lost and timers run.
#![tactic(auto)]

pub mod begin;
pub mod going;
pub mod reading;
pub mod run;
pub mod table;
