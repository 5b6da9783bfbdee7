// The bench: a whole ring of stations on a perfect wire, and what is printed of its frames.
#![tactic(auto)]

pub mod calls;
pub mod delivery;
pub mod ring;
pub mod rows;
pub mod running;
pub mod table;
pub mod text;
