//! What a bus knows, and what waits in it.

use crate::open_call::OpenCall;
use atspi_bus_queues::Queues;
use atspi_match::RuleIndex;
use atspi_match::routing::Closing;
use atspi_message::Message;
use atspi_names::Names;
use std::alloc::Global;
use std::collections::VecDeque;

/// What a bus knows, and what waits in it. Contracts see it as `inner_of` says: the record of the definitions. It has
/// no rule of its own: what holds of a bus at any time (`IsSound`) its calls ask for and give back.
#[derive(Drop)]
pub struct Inner {
    /// Where its memory comes from.
    pub alloc: Global,
    /// Those who have joined, by rising number, which is the order of joining.
    pub joined: Vec<u32>,
    /// Who owns which name.
    pub names: Names,
    /// The match rules with their connections.
    pub rules: RuleIndex,
    /// The calls that wait for their replies, the oldest first.
    pub calls: Vec<OpenCall>,
    /// The serial of the next message of the bus's own.
    pub next: u64,
    /// What waits for each connection, and who is to be closed.
    pub queues: Queues,
    /// The bus's own messages that nobody has asked for yet, the oldest first.
    pub own: VecDeque<Message>,
    /// The closings that nobody has asked for yet, the oldest first.
    pub closings: VecDeque<Closing>,
}
