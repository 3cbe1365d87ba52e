//! Worked cases of what is due on a link from an end that has messages, beside those of `conversation`, whose end has
//! none. Each case is a clause of a function without a body, with its value worked out by hand. So a definition that
//! says otherwise is refused here.

mod due;

pub use due::one_message;
