//! The messages of the registry, and the values that it returns.

mod answers;
mod listeners;
mod properties;
mod replies;
mod roots;
mod start;
mod values;

pub use answers::{child_body, children_body, pairs_body, role_body, role_name_body, root_body};
pub use listeners::{deregistered, registered};
pub use properties::{all_body, count_body, name_body, none_body};
pub use replies::{refused, returned};
pub use roots::{child_added, child_removed, id_call};
pub use start::{hello_call, match_call, request_call};
