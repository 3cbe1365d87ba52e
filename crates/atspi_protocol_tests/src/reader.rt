//! Tests of a reader through its public calls alone, as dialogues. What is due was worked out by hand from the rules of
//! the reader.

mod ends;
mod hostile;
mod parts;
mod plays;
mod rows;
mod start;
