//! Where nothing waits, and readers asked for all, each holds each application as it is now.

pub mod laws;
