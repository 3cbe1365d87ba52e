//! Messages that ends own: calls and signals by names that stand in the program, and the signals of an application,
//! with paths of nodes, values, and the events at a node.
#![tactic(auto)]

mod bodies;
mod changes;
mod children;
mod named;
mod paths;
mod values;

pub use changes::{
    caret_moved, description_changed, name_changed, role_changed, state_changed, text_deleted,
    text_inserted,
};
pub use children::{child_added, child_removed, node_removed, parent_changed};
pub use named::{bus_call, cache_signal, call, signal};
pub use paths::node_path;
pub use values::{reference, reference_type, word};
