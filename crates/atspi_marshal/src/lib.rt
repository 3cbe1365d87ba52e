//! Values and their bytes, both ways, in both byte orders.
#![tactic(auto)]

mod codes;
mod containers;
mod decoding;
mod input;
mod laws;
mod making;
mod plain;
mod text;
mod writing;

pub use containers::{fields_of, value};
pub use decoding::decode;
pub use input::{Bound, Marshalled, bad, byte_at, slice, u16_at, u32_at, u64_at};
pub use laws::{is_read_again, no_front_of_another};
pub use plain::{padding, room};
pub use text::{long, short, signature_at};
pub use writing::steps::{
    append_u32, begin_array, end_array, put_counted, put_padded, put_padding, put_types, put_u32,
    put_values, set_u32,
};
pub use writing::{WriteFault, encode};
