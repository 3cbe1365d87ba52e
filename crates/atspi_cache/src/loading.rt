//! What a reader keeps of the applications that it holds: a view of each. Here: which items a load keeps, and in which
//! order.

mod groups;
mod own;
mod preorder;
mod sorted;

pub use preorder::reached_items;
