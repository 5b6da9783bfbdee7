// The calls of a driver: a station between calls in octets that the driver lends.
#![tactic(auto)]

pub mod hearing;
pub mod making;
pub mod queueing;
pub mod sending;
pub mod taking;
