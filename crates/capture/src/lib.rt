// The form of a capture: records of a day, each an event of the ring.
#![tactic(auto)]

pub mod record;
