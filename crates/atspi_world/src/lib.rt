//! The world of a script: a bus, a registry, applications and readers, and the links between them, which carry bytes.
#![tactic(auto)]

mod acting;
mod doing;
mod fault;
mod getting;
mod showing;
mod stage;
mod starting;
mod turning;
mod wires;

pub use fault::ActFault;
pub use stage::Stage;
