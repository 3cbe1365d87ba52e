//! The items of nodes, as owned ones, as values, and in messages.
#![tactic(auto)]

mod all;
mod items;
mod names;
mod nodes;

pub use all::all_items;
pub use items::{item_value, node_added};
pub use names::interfaces;
pub use nodes::{new_item, node_item, own};
