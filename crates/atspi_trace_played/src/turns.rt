//! Turns are few: as long as serials are not used up, only so many messages are ever taken. Laws of lawful traces and
//! of what is played.

pub mod examples;
pub mod laws;
