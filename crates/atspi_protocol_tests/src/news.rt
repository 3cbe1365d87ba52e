//! Tests of news that are read where they lie in a message, through public calls alone.

mod cache;
mod events;
mod replies;
mod shown;
mod told;
