//! Types that are read from the codes that spell them, without memory.

mod code;
mod first;
mod marks;
mod parsing;
mod shape;
mod types;

pub use shape::Shape;
pub use types::{EntryRef, TyRef, TysRef};
