//! What is told of the nodes of a tree, as values: references, counts, names, and a node's children, place, interfaces
//! and relations.
#![tactic(auto)]

mod children;
mod interfaces;
mod relations;
mod values;

pub use children::{child_at, child_count, index_in_parent, parent, place_of};
pub use interfaces::interface_names;
pub use relations::relation_set;
pub use values::{
    count, literal, no_pairs, node_reference, number, reference_or_null, references, role_text,
    signed, text, words,
};
