//! Values of the definitions of live ends, worked out by hand: of a conversation and of what is due in one, and of an
//! application, a reader and a registry on a link. Each case is a clause of a function without a body. So a definition
//! that says otherwise is refused here.
#![tactic(auto)]

pub mod app;
pub mod conversation;
pub mod due;
pub mod reader;
pub mod registry;
