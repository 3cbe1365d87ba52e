//! Tests of what calls ask of an application's objects, through public calls alone.

mod asking;
mod paths;
