//! Worked cases of the definitions of lawful traces, part by part: why lines are refused and what is left of them, what
//! waits and in which order, what is written of it, and which calls of its own a reader may send. Each case is a clause
//! of a function without a body, with its value worked out by hand. So a definition that says otherwise is refused
//! here, and a new case makes no crate above the definitions be proved again.

mod bytes;
mod carrying;
mod causes;
mod due;
mod ends;
mod entries;
mod hearing;
mod own;
mod questions;
mod refusals;
mod rules;
mod settling;
mod starting;
mod turns;
mod works;

pub use bytes::{down, lengths, taken, up};
pub use carrying::{delivered, letters, settled_bus, written};
pub use causes::{announced, idle_roles, on_links, pairs, rows, said_one_by_one, shown};
pub use due::{freed, in_order, own_calls, refused_lines, truths, without_registry};
pub use ends::{counts, links, parties, standing};
pub use entries::{of_applications, of_ends, of_messages, of_readers};
pub use hearing::{ends_told, fates, held, names, spoken};
pub use own::{may_send, no_asker, no_call, no_turn};
pub use questions::{asked_parts, calls, listening, may_be_asked, no_calls};
pub use refusals::{calls as refused_calls, edits, limits, parties as refused_parties, unrefused};
pub use rules::{asked, others};
pub use settling::{by_standing, due_entries, followed, through};
pub use starting::{app_does, first_worlds, newcomers, rest_taken, user_calls};
pub use turns::{drains, in_turn, links as waiting_links, so_many};
pub use works::{of_calls, of_ends as works_of_ends, of_nobody, of_scripts};
