//! The match rules of a bus: which messages a rule asks for, and who receives a message; and what a bus does with one
//! (`routing`).
#![tactic(auto)]

mod condition;
mod counts;
mod fault;
mod group;
mod item;
mod key;
mod matching;
mod near;
mod printing;
mod reading;
pub mod routing;
mod rule;
mod rule_groups;
mod rule_index;
mod runs;
mod slots;
mod value;
mod value_of_key;

pub use condition::{Condition, MessageType};
pub use fault::{RuleFault, RuleRead};
pub use printing::is_read_again;
pub use rule::Rule;
pub use rule_index::{RuleAdd, RuleIndex};
