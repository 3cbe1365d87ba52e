//! Worked rows of a bus, and what strangers may do to it, through public calls alone. What is due was worked out by
//! hand from the rules of routing.

mod hostile;
mod letters;
mod longest;
mod looking;
mod playing;
mod rows;
