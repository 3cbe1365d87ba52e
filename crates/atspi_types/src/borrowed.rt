//! Values as they are read: one that is borrowed, and a list as it lies in memory.

ghost use Rattle.std.specs.Prelude.{◌≡◌, ◌<◌, length, slice_get, Some};

use crate::signature::Signature;
use crate::ty::Ty;
use crate::value::{Pairs, Value, Values};
use atspi_base::Text;
use atspi_base::valid_names::Path;

/// A value that is borrowed.
#[derive(Clone, Copy)]
pub enum ValueRef<'a> {
    Byte(u8),
    Bool(bool),
    I16(i16),
    U16(u16),
    I32(i32),
    U32(u32),
    I64(i64),
    U64(u64),
    Double(u64),
    Text(&'a Text),
    Path(&'a Path),
    Sig(&'a Signature),
    Array(&'a Ty, &'a Values),
    Struct(&'a Values),
    Dict(&'a Ty, &'a Ty, &'a Pairs),
    Variant(&'a Ty, &'a Value),
}

/// A list of values as it lies in memory: numbers of one type, or values of any types.
#[derive(Clone, Copy)]
pub enum Run<'a> {
    Bytes(&'a [u8]),
    Bools(&'a [bool]),
    I16s(&'a [i16]),
    U16s(&'a [u16]),
    I32s(&'a [i32]),
    U32s(&'a [u32]),
    I64s(&'a [i64]),
    U64s(&'a [u64]),
    Doubles(&'a [u64]),
    Values(&'a [Value]),
}

impl<'a> Run<'a> {
    ghost use Rattle.atspi_types.specs.Borrowed.{ref_data, run_data};

    /// The value at an index.
    pub fn at(self, i: usize) -> ValueRef<'a>
        requires { i < length (run_data self) }
        ensures { slice_get (run_data self.entry) i ≡ Some (ref_data result) }
    {
        match self {
            Run::Bytes(items) => ValueRef::Byte(items[i]),
            Run::Bools(items) => ValueRef::Bool(items[i]),
            Run::I16s(items) => ValueRef::I16(items[i]),
            Run::U16s(items) => ValueRef::U16(items[i]),
            Run::I32s(items) => ValueRef::I32(items[i]),
            Run::U32s(items) => ValueRef::U32(items[i]),
            Run::I64s(items) => ValueRef::I64(items[i]),
            Run::U64s(items) => ValueRef::U64(items[i]),
            Run::Doubles(items) => ValueRef::Double(items[i]),
            Run::Values(items) => items[i].borrowed(),
        }
    }
}
