//! Numbers and booleans of one type as values.

ghost use Rattle.std.specs.Prelude.{◌≡◌, IfOk, map};
ghost use Rattle.atspi_types.specs.Data.{Data, number_data};
ghost use Rattle.atspi_types.specs.Kinds.{double};
ghost use Rattle.atspi_types.specs.DataView.{data_of};

use super::Value;
use atspi_base::NoMemory;
use std::alloc::Global;

/// What a value of fixed size is made of.
pub trait Plain: Copy {
    /// The value.
    ghost plain_data: { Self → Data };

    /// The value.
    fn value(self) -> Value
        ensures { data_of result ≡ plain_data self };
}

impl Plain for u8 {
    ghost use Rattle.atspi_types.specs.Data.{number_data};
    ghost use Rattle.atspi_types.specs.Kinds.{byte};

    ghost plain_data = { number_data byte };

    fn value(self) -> Value {
        Value::Byte(self)
    }
}

impl Plain for bool {
    ghost use Rattle.atspi_types.specs.Data.{boolean_data};

    ghost plain_data = { boolean_data };

    fn value(self) -> Value {
        Value::Bool(self)
    }
}

impl Plain for i16 {
    ghost use Rattle.std.specs.Int.{w16, cast_unsigned};
    ghost use Rattle.atspi_types.specs.Data.{number_data};
    ghost use Rattle.atspi_types.specs.Kinds.{i16};

    ghost plain_data = { λ z. number_data i16 (cast_unsigned w16 z) };

    fn value(self) -> Value {
        Value::I16(self)
    }
}

impl Plain for u16 {
    ghost use Rattle.atspi_types.specs.Data.{number_data};
    ghost use Rattle.atspi_types.specs.Kinds.{u16};

    ghost plain_data = { number_data u16 };

    fn value(self) -> Value {
        Value::U16(self)
    }
}

impl Plain for u32 {
    ghost use Rattle.atspi_types.specs.Data.{number_data};
    ghost use Rattle.atspi_types.specs.Kinds.{u32};

    ghost plain_data = { number_data u32 };

    fn value(self) -> Value {
        Value::U32(self)
    }
}

impl Plain for u64 {
    ghost use Rattle.atspi_types.specs.Data.{number_data};
    ghost use Rattle.atspi_types.specs.Kinds.{u64};

    ghost plain_data = { number_data u64 };

    fn value(self) -> Value {
        Value::U64(self)
    }
}

impl Plain for i32 {
    ghost use Rattle.std.specs.Int.{w32, cast_unsigned};
    ghost use Rattle.atspi_types.specs.Data.{number_data};
    ghost use Rattle.atspi_types.specs.Kinds.{i32};

    ghost plain_data = { λ z. number_data i32 (cast_unsigned w32 z) };

    fn value(self) -> Value {
        Value::I32(self)
    }
}

impl Plain for i64 {
    ghost use Rattle.std.specs.Int.{w64, cast_unsigned};
    ghost use Rattle.atspi_types.specs.Data.{number_data};
    ghost use Rattle.atspi_types.specs.Kinds.{i64};

    ghost plain_data = { λ z. number_data i64 (cast_unsigned w64 z) };

    fn value(self) -> Value {
        Value::I64(self)
    }
}

/// The items as values.
pub fn values_of<T: Plain>(alloc: Global, items: &[T]) -> Result<Vec<Value>, NoMemory>
    ensures { IfOk result (λ values. map data_of values.items ≡ map T.plain_data items.now) }
{
    let mut values = Vec::with_capacity(alloc, items.len())?;
    for item in items {
        values.push(item.value())?;
    }
    Ok(values)
}

/// The bits of doubles as values.
pub fn doubles_of(alloc: Global, items: &[u64]) -> Result<Vec<Value>, NoMemory>
    ensures { IfOk result (λ values. map data_of values.items ≡ map (number_data double) items.now) }
{
    let mut values = Vec::with_capacity(alloc, items.len())?;
    for bits in items {
        values.push(Value::Double(*bits))?;
    }
    Ok(values)
}
