//! The steps of a bus: what it does with a message, and when a connection leaves, each as its definition says. After a
//! fault of a step the bus is given up: it is one of quota 0, to which nobody has joined.
#![tactic(auto)]

mod calling;
mod fault;
mod handing;
mod inner;
mod keeping;
mod leaving;
mod open_call;
mod passing;
mod receiving;
mod saying;
mod standing;
mod taking;

pub use calling::greeting;
pub use fault::{BusFault, JoinFault};
pub use handing::{Spelled, write_own};
pub use inner::Inner;
pub use leaving::tell_callers;
pub use open_call::OpenCall;
pub use receiving::{receivers, receivers_of_own};
pub use saying::expects_reply;
pub use standing::{tell_acquired, unique_of};
pub use taking::{is_for_bus, is_hello};
