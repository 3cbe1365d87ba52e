//! Messages that an application does not answer: what comes back to the calls of its start, the news of listeners, and
//! what it ignores.

mod heeding;

pub use heeding::{heed, is_answered};
