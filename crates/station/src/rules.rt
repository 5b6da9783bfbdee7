// What a station does: a file for each call, and one for what is sent.
pub mod deeds;
pub mod heard;
pub mod queue;
pub mod sight;
pub mod start;
pub mod take;
pub mod timer;
