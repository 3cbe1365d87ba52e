//! What every crate of the bus stands on: texts and lists that contracts see as plain data, the outside as two traits,
//! fakes of it in memory, and the names of the wire.
#![tactic(auto)]

mod bytes;
mod digits;
mod lists;
mod memory;
mod outside;
mod places;
mod quoted;
mod steps;
mod text;
pub mod valid_names;

pub use bytes::Bytes;
pub use digits::{hex_digit_of, put_decimal, put_hex, put_signed};
pub use lists::{Marks, Nums, Texts};
pub use memory::{MemSink, MemSource};
pub use outside::{Failed, NoMemory, Sink, Source, write_all};
pub use places::byte_of;
pub use quoted::{is_control_byte, put_in_quotes, put_quoted};
pub use steps::Steps;
pub use text::{Text, TextFault, read_str};
