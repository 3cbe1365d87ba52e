//! What the ends of the bus say and keep, as definitions: the members and objects of AT-SPI2, what an application
//! announces and exports, what the registry and a reader do with each message. A module is one of these, with its
//! worked cases; the crates above prove bodies that meet them.
#![tactic(auto)]

pub mod announcing;
pub mod ends;
pub mod exporting;
pub mod following;
pub mod members;
pub mod news;
pub mod objects;
pub mod registering;
pub mod registry_laws;
pub mod whole;
