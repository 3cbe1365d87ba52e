//! Calls of a face that look first whether they may be made, for callers that know nothing of its nodes.

mod guarded;

pub use guarded::{caret, change, has_text, is_here, marks, part, put};
