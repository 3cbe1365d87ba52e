//! The roles and states of accessible objects: their numbers and their names.
#![tactic(auto)]

mod laws;
mod places;
mod roles;
mod states;

pub use laws::{names_tell_roles, names_tell_states};
pub use roles::{role_name, role_of_word, role_word};
pub use states::{state_name, state_of_name};
