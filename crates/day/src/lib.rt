// A recorded day record by record: what each asks for, does and prints.
#![tactic(auto)]

pub mod calls;
pub mod listening;
pub mod plan;
pub mod standing;
pub mod strikes;
pub mod text;
pub mod wire;
