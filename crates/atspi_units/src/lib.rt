//! Reading units of a text: characters, words and lines, and which of them holds a character.
#![tactic(auto)]

pub mod examples;
mod grain;
mod laws;
mod seam;
mod stretch;
mod unit;
mod window;

pub use grain::Grain;
pub use laws::{one_unit, piece_is_told, pieces_are_the_text, word_pieces};
pub use unit::unit_at;
pub use window::{Reaches, unit_within};
