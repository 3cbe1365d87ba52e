//! What a call asks of the registry's objects, read where the message lies.

mod arguments;
mod ask;
mod asking;
mod member;
mod object;

pub use ask::Ask;
pub use asking::asked;
