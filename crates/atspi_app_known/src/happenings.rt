//! What happens at an application, in its order, and the queue of it.

mod event;
mod happenings;
mod kept;
mod queue;
mod room;

pub use event::AppEvent;
pub use happenings::Happenings;
pub use kept::AppQueue;
