//! Worked cases of what a bus does that stand beside those of `atspi_match::routing`: what each condition of a match
//! rule asks for, what the bus's own messages are made of, and what a queue takes. Each case is a clause of a function
//! without a body, with its value worked out by hand. So a definition that says otherwise is refused here, and a new
//! case makes no crate above the definitions be proved again.

mod answers;
mod conditions;
mod own;
mod queues;

pub use answers::{changed, first_calls, limits, table};
pub use conditions::{
    arguments, branches, fields, kinds, namespaces, owned_names, paths, rules, senders,
};
pub use own::{errors, numbers, returns, signals, told};
pub use queues::deliveries;
