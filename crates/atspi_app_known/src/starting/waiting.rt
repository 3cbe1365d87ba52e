//! How far a start has come.

/// The calls by which an application starts, one behind the return to the one before.
#[derive(Clone, Copy, Debug, PartialEq, Eq)]
pub enum StartStep {
    Hello,
    AddMatch,
    GetRegisteredEvents,
    Embed,
}

/// How far its start has come.
#[derive(Clone, Copy, Debug, PartialEq, Eq)]
pub enum Waiting {
    /// It has not started.
    New,
    /// It waits for the return to its call with this serial.
    Awaits(StartStep, u32),
    /// Nothing more of its start is to come.
    Over,
}
