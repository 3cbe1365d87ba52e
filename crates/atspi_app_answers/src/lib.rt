//! What an application answers to calls of its objects that look into no contents: which object has a path, what it
//! offers, the members of Accessible, Application, Peer and Cache, all properties, and the reply.
#![tactic(auto)]

mod accessible;
mod answers;
mod asking;
mod counts;
mod fault;
mod lists;
mod members;
mod place;
mod properties;
mod replies;
mod selected;
mod variants;

pub use answers::{answer, id_after};
pub use asking::asked_in;
pub use counts::{Counts, faces_tell_counts};
pub use fault::AnswerFault;
pub use members::is_of_contents;
pub use place::{AppPlace, object_of, place_at};
pub use replies::{refusal, reply};
