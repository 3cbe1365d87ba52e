//! Where an end stands.

use crate::AuthFault;
use crate::reply::Waiting;

/// Where an end stands in the conversation.
#[derive(Clone, Copy)]
pub(crate) enum Stage {
    /// A server waits for the zero byte.
    Zero,
    Waits(Waiting),
    /// The lines are over, and messages follow.
    Over,
    Failed(AuthFault),
}
