//! What is asked.

use crate::interface::AppInterface;
use atspi_protocol::members::{ObjectMember, ObjectProperty};

/// What a call asks of an object of an application.
#[derive(Clone, Copy, Debug, PartialEq, Eq)]
pub enum Ask {
    /// A member. The arguments of the call are of the types that it takes.
    Call(ObjectMember),
    /// A property.
    Get(ObjectProperty),
    /// All properties of an interface.
    GetAll(AppInterface),
    /// Another number of the application, the one property that can be set.
    SetId(i32),
}
