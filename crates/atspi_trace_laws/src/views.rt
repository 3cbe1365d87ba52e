//! What the announcements of a lawful trace tell.

pub mod laws;
