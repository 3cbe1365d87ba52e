//! One thing that happens.

use atspi_base::Text;
use atspi_base::valid_names::BusName;
use atspi_message::Message;
use atspi_tree_model::Step;

/// What happens at an application: in its order it is told so.
#[derive(Drop)]
pub enum AppEvent {
    /// A step of its tree.
    Step(Step),
    /// A message that it sends.
    Send(Message),
    /// A listener's pattern counts from now on.
    Hears(BusName, Text),
    /// It no longer counts.
    Deaf(BusName, Text),
}
