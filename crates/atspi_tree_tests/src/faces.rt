//! Tests of the faces over their public calls: the same calls through the trait, and the same answers.

mod tables;
mod tests;
