//! What a reader keeps.

use crate::waiting::Waiting;
use atspi_base::valid_names::BusName;
use atspi_protocol::following::{Question, ReaderEvent};
use atspi_reader_known::Apps;
use std::alloc::Global;
use std::collections::VecDeque;

/// A reader (AT-SPI2's Cache and Event.Object interfaces, read by this project's profile): it becomes known to the bus
/// and the registry, follows the applications that the registry tells, keeps their views, and asks for what it does not
/// know, one call at a time. What it does is queued, and handed out by `next`. It keeps the allocator that it was made
/// with.
#[derive(Drop)]
pub struct Reader {
    pub(crate) alloc: Global,
    pub(crate) to_come: VecDeque<Question>,
    pub(crate) pending: Option<Waiting>,
    pub(crate) registry: Option<BusName>,
    pub(crate) apps: Apps,
    pub(crate) number: u64,
    pub(crate) out: VecDeque<ReaderEvent>,
}
