//! What an application tells and changes of the contents of its nodes: texts, tables, selections and actions.
#![tactic(auto)]

pub mod answers;
pub mod changes;
pub mod texts;
pub mod values;
