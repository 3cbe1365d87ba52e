//! Worked cases: what the definitions say of a small registry, beside the value that is wanted, worked out by hand from
//! the rules. Each case is a clause of a function without a body. So a definition that says otherwise is refused here,
//! though the law holds of it.

pub mod children;
pub mod leaving;
pub mod listeners;
pub mod objects;
pub mod starting;
