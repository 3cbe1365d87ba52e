//! The names of the wire: bus names, interfaces, members and object paths, each of its rule (D-Bus Specification,
//! "Valid Names" and "Valid Object Paths").

mod bus_name;
mod classes;
mod elements;
mod fault;
mod interface;
mod member;
mod path;

pub use bus_name::{BusName, is_bus_name};
pub use fault::NameFault;
pub use interface::{Interface, is_interface};
pub use member::{Member, is_member};
pub use path::{Path, is_path};
