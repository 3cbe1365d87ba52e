//! The members of the interfaces that accessible objects have, as data: what a call asks of an object, or why it is
//! refused. With worked cases.

pub mod examples;
mod member;
mod property;

pub use member::ObjectMember;
pub use property::ObjectProperty;
