//! Laws of what the registry does, whatever it takes.

mod examples;
mod laws;

pub use examples::news_of_children;
pub use laws::{what_is_asked_for, what_it_sends};
