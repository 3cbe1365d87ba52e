//! What holds where a lawful trace tells that nothing waits.

pub mod laws;
