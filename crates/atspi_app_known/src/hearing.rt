//! What an application hears of listeners, read where the messages lie.

mod list;
mod news;
mod pair;
mod pair_ref;

pub use list::listed;
pub use news::{News, news_in};
pub use pair_ref::PairRef;
