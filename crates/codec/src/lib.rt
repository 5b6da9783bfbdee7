// The foot of the codec: numbers in octets and bits, and the ring file.
#![tactic(auto)]

pub mod bits;
pub mod channels;
pub mod forms;
pub mod head;
pub mod octets;
pub mod reader;
pub mod ring;
pub mod sizes;
