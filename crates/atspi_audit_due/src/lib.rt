//! The definitions of an auditor of traces: which event is due behind the lines of a script and the events before it,
//! which one fits there, which traces are lawful, and which verdict a text has. They stand on those of `atspi_trace`,
//! and are its own where the calls of readers are concerned, of which they demand what the law of readers says and no
//! more.
#![tactic(auto)]

mod laws;

pub use laws::{
    all_else_is_fixed, allows_more, broken_is_found, differs_in_calls_alone, goes_where_each_fits,
    lawful_is_answered, lawful_is_fitting, lawful_is_found, verdicts_are_one, what_stands_fits,
};
