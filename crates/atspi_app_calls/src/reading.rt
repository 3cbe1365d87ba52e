//! Reading the calls of an object where their messages lie: the arguments.

mod arguments;
mod granularity;

pub use arguments::{
    first_signed, first_text, second_signed, second_text, second_unsigned, third_set_signed,
    third_signed,
};
pub use granularity::grain_of;
