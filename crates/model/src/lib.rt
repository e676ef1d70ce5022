// The FSRS-7 memory model, and the tables of the default configuration. What the parameters alone decide is computed
// once (`Fsrs7Runtime::new`), what a memory state decides with them once a state (`Curve`).
#![tactic(auto)]

mod blocks;
pub mod defaults;
mod forgetting_curve;
mod memory;
mod parameters;
mod solver;

pub use forgetting_curve::{Curve, MemoryState};
pub use parameters::Fsrs7Runtime;
