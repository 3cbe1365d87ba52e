//! Calls that wait for their replies.

/// A call that waits for its reply: who called, with which serial, and who is to answer.
#[derive(Clone, Copy, Debug, PartialEq, Eq)]
pub struct OpenCall {
    pub caller: u32,
    pub serial: u32,
    pub callee: u32,
}
