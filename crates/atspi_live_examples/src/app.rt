//! Values of the definitions of live ends, worked out by hand: what the lines of an input ask for, in which rounds an
//! application does them and takes its messages, what it hands over, and how its runs end.

mod asking;
mod doing;
mod ends;
mod handing;
mod naming;
mod paces;
mod pacing;
mod reading;
mod runs;
mod standing;
mod turns;
mod unstarted;

pub use asking::{edits_read, lines_read, lines_that_ask, others_read};
pub use doing::{edits_done, events_that_come, lines_refused, lines_spent, refusals};
pub use ends::{numbered_ends, unstarted_ends};
pub use handing::{applications_kept, queues_handed};
pub use naming::{meanings_of_reasons, names_of_refusals, reasons_to_stop};
pub use paces::{pace_of_lines, rounds_of_lines, stops_of_lines};
pub use pacing::{lines_in_turn, messages_heard, rounds_begun};
pub use reading::{inputs_read, lines_passed, sources_blamed, the_limit_of_an_input};
pub use runs::{runs_cut_off, runs_on_links, runs_reported};
pub use standing::{deeds_of_lines, messages_that_come, orders_of_events, texts_of_lines};
pub use turns::{a_message_over_two_reads, pieces_of_reads};
pub use unstarted::{runs_stopped, standing_told, turns_told};
