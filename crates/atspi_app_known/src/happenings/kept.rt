//! What an application has queued.

ghost use Rattle.std.specs.Prelude.{◌≡◌, ◌≤◌, ◌+◌};
ghost use Rattle.atspi_app_known.specs.happenings.Happened.{sent_by};

use crate::happenings::event::AppEvent;
use std::collections::VecDeque;

/// What is queued at an application, the oldest first. A message is numbered where it is handed out; the numbers rise
/// by one from 1, and there is one for each message that waits.
#[derive(Drop)]
pub struct AppQueue {
    /// How many messages were handed out.
    pub(crate) handed_out: u64,
    /// How many numbers are taken, also by those that wait.
    pub(crate) taken: u64,
    pub(crate) waiting: VecDeque<AppEvent>,
    ghost counted: { taken ≡ handed_out + sent_by waiting.items },
    ghost few: { taken ≤ 4294967295 },
}
