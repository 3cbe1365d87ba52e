//! The connections of a world: who is at each, the link on which it sends to the bus, and what of that is told.
#![tactic(auto)]

mod fault;
mod link;
mod naming;
mod post;
mod reading;
mod rules;
mod sending;

pub use fault::SendFault;
pub use link::Link;
pub use naming::{named_app, party_named};
pub use post::{Post, Standing};
pub use reading::{Whole, first_message, missing};
pub use rules::meets_rules;
pub use sending::{apart, note, put_behind, send};
