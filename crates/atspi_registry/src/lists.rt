//! What the registry keeps: the pairs of its listeners, and its children.

mod children;
mod pairs;

pub use children::Children;
pub use pairs::Pairs;
