//! Tests of the texts of traces, through public calls alone.

mod events;
mod made;
mod shown;
mod wire;
