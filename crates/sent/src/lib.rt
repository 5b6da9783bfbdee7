// What is sent: a round, a grant, the head, a token passed on, and what goes in place of a frame that was not acknowledged.
#![tactic(auto)]

pub mod resend;
pub mod round;
