//! Worked cases of the definitions of conversations, with the values worked out by hand. Each case is a clause of a
//! function without a body. So a definition that says otherwise is refused here.

mod cases;
mod ends;
mod going;
mod promises;
mod rounds;
mod spent;
mod steps;

pub use cases::{answers_of_reads, bytes_of_lines, is_over, lines, sent};
pub use ends::{bytes_at_fault, bytes_in_order, ended_runs, ends_left_off, lines_at_fault};
pub use going::{
    at_ease, beginnings, broken_off, converses, is_ended, left, longest_calls, next_calls,
    not_told, rounds_done, speeches, uttered,
};
pub use promises::{
    attends, attends_all, attends_to_spent, ends_of_what_is_held, hands_out, may_send, may_speak,
    rests, rules_met, says, says_one, takes,
};
pub use rounds::{runs, single_rounds};
pub use spent::{bytes_that_spend, first_rounds, messages_sent, spent_runs};
pub use steps::{
    answers_to_go_on, counts_of_failures, kinds_of_endings, later_calls, told_calls,
    writes_of_what_waits,
};
