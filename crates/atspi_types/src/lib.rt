//! Types, values and signatures of the wire.
#![tactic(auto)]

mod borrowed;
mod fault;
mod laws;
mod parser;
mod signature;
mod token;
mod ty;
mod value;

pub use borrowed::{Run, ValueRef};
pub use fault::{Fault, Order, ReadFault};
pub use laws::{signature_or_fault, tests_decide};
pub use signature::Signature;
pub use ty::{EntryType, Ty, Tys};
pub use value::{Pairs, Value, Values};
