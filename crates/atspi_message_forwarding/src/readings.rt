//! What holds of any bytes and what they are read as, as laws over the definitions of `atspi_marshal` and
//! `atspi_message`: an item or a fault and never both, and what is written is what is asked for.

pub mod laws;
