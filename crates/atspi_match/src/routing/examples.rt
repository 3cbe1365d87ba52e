//! Worked cases: what the definitions say of a small bus, beside the value that is wanted, worked out by hand from the
//! rules. Each case is a clause of a function without a body. So a definition that says otherwise is refused here,
//! though every law holds of it.

pub mod answers;
pub mod leaving;
pub mod members;
pub mod queues;
pub mod routes;
