//! The ends of a world by their numbers: one takes a message, an edit, a call or a face, and what it did is put on its
//! link and into the trace; what they show, and which lines they refuse.
#![tactic(auto)]

mod cast;
mod doing;
mod hearing;
mod places;
mod refusing;
mod showing;
mod starting;
mod taking;
mod telling;
mod wires;

pub use cast::Cast;
pub use doing::{call_at, edit_at, swap_at};
pub use hearing::hear_at;
pub use places::{conn_of, post_of};
pub use refusing::{Refusal, why_refused};
pub use showing::{count_at, shown_at};
pub use starting::{start_app_at, start_reader_at, tell_start};
pub use taking::take_front;
pub use telling::{tell_app_at, tell_first, tell_reader_at};
pub use wires::write_event;
