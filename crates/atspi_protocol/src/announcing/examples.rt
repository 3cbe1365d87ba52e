//! Worked cases: the signals of steps, and the news in signals, worked out by hand from the table of announcements and
//! the rules for readers. Each case is a clause of a function without a body. So a definition that says otherwise is
//! refused here.

pub mod announced;
