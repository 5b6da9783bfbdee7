// A station's record: the station between calls, in octets.
#![tactic(auto)]

pub mod fields;
pub mod layout;
pub mod lists;
pub mod live;
pub mod record;
pub mod slip;
pub mod turn;
