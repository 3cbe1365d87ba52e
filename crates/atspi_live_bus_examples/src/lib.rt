//! Values of the definitions of a live bus, worked out by hand: what it was asked and where that leads it, which links
//! are open and closed for what, how turns and rounds go on, what calls leave of its links, and what is known of links
//! between calls.
#![tactic(auto)]

mod asking;
mod closing;
mod coursing;
mod keeping;
pub mod limits;
mod rounding;
mod seating;
mod turning;

pub use asking::{calls_in_order, calls_that_lead, last_numbers};
pub use closing::{
    closed_once, left_in_part, lost_links, none_taken, open_behind_calls, rests, stopped_reads,
    what_ceases, whole_reads, writes,
};
pub use coursing::{accepts, begun, calls_of_a_course, kinds_of_asking, steps_of_a_course};
pub use keeping::{
    buses_and_links, fetched_bytes, links_behind_reads, links_that_join, reads_of_links,
    seated_links, talks_of_links,
};
pub use rounding::{
    all_given, answers_to_go_on, calls_that_close, cut_turns, ends_of_rounds, gifts, may_give,
    reads, round_counts, tellings, turns_of_links, unheard_runs,
};
pub use seating::{
    calls_for_one, ends_of_runs, links_in_order, links_left, links_that_stay, no_links,
    order_of_links, what_waited,
};
pub use turning::{
    carried_over, messages_of_links, settled_links, turns_of_seated, writes_in_turns,
    writes_of_links,
};
