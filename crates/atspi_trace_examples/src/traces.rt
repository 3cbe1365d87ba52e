//! Worked traces: what must stand next, beside what is wanted, worked out by hand from the rules; and traces of wrong
//! bodies, each refused at the entry where it goes wrong. Each case is a clause of a function without a body.

pub mod alone;
pub mod moving;
pub mod reading;
pub mod refused;
pub mod routing;
pub mod runs;
pub mod telling;
