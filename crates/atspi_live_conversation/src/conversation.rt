//! An end's part of a conversation on a link, but for its messages: authentication, what is held of a message that is
//! not whole, and the bytes that wait to be given.

ghost use Rattle.atspi_live_conversation.specs.Talking.{HasBegun};

use crate::unsent::Unsent;
use atspi_auth::Client;
use atspi_stream::Feeder;
use std::alloc::Global;

/// What is known of a link between two rounds.
#[derive(Drop)]
pub struct Conversation {
    pub(crate) client: Client,
    pub(crate) feeder: Feeder,
    pub(crate) unsent: Unsent,
    /// How many bytes of messages were heard.
    pub(crate) heard: u64,
}

impl Conversation {
    /// Nothing was heard or said.
    pub fn new(alloc: Global) -> Conversation
        ensures { HasBegun result }
    {
        Conversation {
            client: Client::new(alloc),
            feeder: Feeder::new(alloc),
            unsent: Unsent::new(alloc),
            heard: 0,
        }
    }
}
