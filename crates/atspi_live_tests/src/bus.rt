//! Tests of the bus on links over a host in memory, through public calls alone.

mod rows;
mod runs;
mod unread;
