//! Tests of the lines of a script, through public calls alone.

mod forms;
mod hostile;
mod told;
