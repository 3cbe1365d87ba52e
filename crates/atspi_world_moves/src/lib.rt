//! The bus of a world, the links of its ends, and the trace: what is carried between ends, and what is told of it.
#![tactic(auto)]

mod carrier;
mod closing;
mod down;
mod fault;
mod joining;
mod moving;
mod steps;
mod up;
mod waiting;

pub use carrier::Carrier;
pub use fault::CarryFault;
pub use waiting::Turn;
