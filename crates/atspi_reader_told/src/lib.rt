//! What messages tell a reader of connections and of applications, read where they lie.
#![tactic(auto)]

mod children;
mod ended;
mod hello;
mod sender;

pub use children::{new_child, references, returns_children};
pub use ended::ended_name;
pub use hello::returns_name;
pub use sender::sender_of;
