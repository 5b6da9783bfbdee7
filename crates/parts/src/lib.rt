// What a station is made of, over ring positions: lists of messages, the live set, the table of moves, frames, requests and
// their refusals.
#![tactic(auto)]

pub mod frame;
pub mod list;
pub mod live;
pub mod moves;
pub mod refusals;
pub mod request;
