//! Tests of the calls of a reader, through public calls alone.

mod deeds;
mod own;
mod shown;
