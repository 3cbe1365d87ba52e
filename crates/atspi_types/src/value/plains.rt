//! Numbers and booleans of one type, kept each in its own size.

ghost use Rattle.std.specs.Prelude.{◌≡◌, [], ◌∷◌, ◌++◌, true, IfOk, OnOk, OnErr, MatchBool, MatchOption, ⊤, length};
ghost use Rattle.std.specs.Prelude.{map};
ghost use Rattle.atspi_types.specs.Borrowed.{run_data};
ghost use Rattle.atspi_types.specs.DataView.{data_of};
ghost use Rattle.atspi_types.specs.PlainsView.{plains_data};

use super::Value;
use super::plain::{doubles_of, values_of};
use crate::borrowed::Run;
use atspi_base::NoMemory;
use std::alloc::Global;

/// A list of numbers of one type, or of booleans.
#[derive(Drop)]
pub(super) enum Plains {
    Bytes(Vec<u8>),
    Bools(Vec<bool>),
    I16s(Vec<i16>),
    U16s(Vec<u16>),
    I32s(Vec<i32>),
    U32s(Vec<u32>),
    I64s(Vec<i64>),
    U64s(Vec<u64>),
    Doubles(Vec<u64>),
}

/// Appends an item.
fn append<T: Copy>(items: &mut Vec<T>, item: T) -> Result<bool, NoMemory>
    ensures pushed { OnOk result (items.new.items ≡ items.old.items ++ item ∷ []) }
    ensures told { IfOk result (λ done. done ≡ true) }
    ensures err { OnErr result (items.new.items ≡ items.old.items) }
{
    items.push(item)?;
    Ok(true)
}

/// A list of one item.
fn one<T: Copy>(alloc: Global, item: T) -> Result<Vec<T>, NoMemory>
    ensures { IfOk result (λ items. items.items ≡ item ∷ []) }
{
    let mut items = Vec::new(alloc);
    items.push(item)?;
    Ok(items)
}

impl Plains {
    /// How many there are.
    pub(super) fn len(&self) -> usize
        ensures { result ≡ length (plains_data self.now) }
    {
        match self {
            Plains::Bytes(items) => items.len(),
            Plains::Bools(items) => items.len(),
            Plains::I16s(items) => items.len(),
            Plains::U16s(items) => items.len(),
            Plains::I32s(items) => items.len(),
            Plains::U32s(items) => items.len(),
            Plains::I64s(items) => items.len(),
            Plains::U64s(items) => items.len(),
            Plains::Doubles(items) => items.len(),
        }
    }

    /// They as they lie in memory.
    pub(super) fn run(&self) -> Run<'_>
        ensures { run_data result ≡ plains_data self.now }
    {
        match self {
            Plains::Bytes(items) => Run::Bytes(items),
            Plains::Bools(items) => Run::Bools(items),
            Plains::I16s(items) => Run::I16s(items),
            Plains::U16s(items) => Run::U16s(items),
            Plains::I32s(items) => Run::I32s(items),
            Plains::U32s(items) => Run::U32s(items),
            Plains::I64s(items) => Run::I64s(items),
            Plains::U64s(items) => Run::U64s(items),
            Plains::Doubles(items) => Run::Doubles(items),
        }
    }

    /// An equal list.
    pub(super) fn copy(&self, alloc: Global) -> Result<Plains, NoMemory>
        ensures { IfOk result (λ copy. plains_data copy ≡ plains_data self.now) }
    {
        match self {
            Plains::Bytes(items) => Ok(Plains::Bytes(items.to_vec(alloc)?)),
            Plains::Bools(items) => Ok(Plains::Bools(items.to_vec(alloc)?)),
            Plains::I16s(items) => Ok(Plains::I16s(items.to_vec(alloc)?)),
            Plains::U16s(items) => Ok(Plains::U16s(items.to_vec(alloc)?)),
            Plains::I32s(items) => Ok(Plains::I32s(items.to_vec(alloc)?)),
            Plains::U32s(items) => Ok(Plains::U32s(items.to_vec(alloc)?)),
            Plains::I64s(items) => Ok(Plains::I64s(items.to_vec(alloc)?)),
            Plains::U64s(items) => Ok(Plains::U64s(items.to_vec(alloc)?)),
            Plains::Doubles(items) => Ok(Plains::Doubles(items.to_vec(alloc)?)),
        }
    }

    /// They as values.
    pub(super) fn spread(&self, alloc: Global) -> Result<Vec<Value>, NoMemory>
        ensures { IfOk result (λ values. map data_of values.items ≡ plains_data self.now) }
    {
        match self {
            Plains::Bytes(items) => values_of(alloc, items),
            Plains::Bools(items) => values_of(alloc, items),
            Plains::I16s(items) => values_of(alloc, items),
            Plains::U16s(items) => values_of(alloc, items),
            Plains::I32s(items) => values_of(alloc, items),
            Plains::U32s(items) => values_of(alloc, items),
            Plains::I64s(items) => values_of(alloc, items),
            Plains::U64s(items) => values_of(alloc, items),
            Plains::Doubles(items) => doubles_of(alloc, items),
        }
    }

    /// The list of one number or boolean; none for any other value.
    pub(super) fn first(alloc: Global, value: &Value) -> Result<Option<Plains>, NoMemory>
        ensures { IfOk result (λ list. MatchOption list ⊤ (λ plains. plains_data plains ≡ data_of value.now ∷ [])) }
    {
        match value {
            Value::Byte(n) => Ok(Some(Plains::Bytes(one(alloc, *n)?))),
            Value::Bool(b) => Ok(Some(Plains::Bools(one(alloc, *b)?))),
            Value::I16(n) => Ok(Some(Plains::I16s(one(alloc, *n)?))),
            Value::U16(n) => Ok(Some(Plains::U16s(one(alloc, *n)?))),
            Value::I32(n) => Ok(Some(Plains::I32s(one(alloc, *n)?))),
            Value::U32(n) => Ok(Some(Plains::U32s(one(alloc, *n)?))),
            Value::I64(n) => Ok(Some(Plains::I64s(one(alloc, *n)?))),
            Value::U64(n) => Ok(Some(Plains::U64s(one(alloc, *n)?))),
            Value::Double(bits) => Ok(Some(Plains::Doubles(one(alloc, *bits)?))),
            _ => Ok(None),
        }
    }

    /// Appends a value of their type, and answers whether it is one. After want of memory the list is as before.
    pub(super) fn push(&mut self, value: &Value) -> Result<bool, NoMemory>
        ensures pushed { IfOk result (λ done. MatchBool done
            (plains_data self.new ≡ plains_data self.old ++ data_of value.now ∷ [])
            (plains_data self.new ≡ plains_data self.old)) }
        ensures err { OnErr result (plains_data self.new ≡ plains_data self.old) }
    {
        match self {
            Plains::Bytes(items) => match value {
                Value::Byte(n) => append(items, *n),
                _ => Ok(false),
            },
            Plains::Bools(items) => match value {
                Value::Bool(b) => append(items, *b),
                _ => Ok(false),
            },
            Plains::I16s(items) => match value {
                Value::I16(n) => append(items, *n),
                _ => Ok(false),
            },
            Plains::U16s(items) => match value {
                Value::U16(n) => append(items, *n),
                _ => Ok(false),
            },
            Plains::I32s(items) => match value {
                Value::I32(n) => append(items, *n),
                _ => Ok(false),
            },
            Plains::U32s(items) => match value {
                Value::U32(n) => append(items, *n),
                _ => Ok(false),
            },
            Plains::I64s(items) => match value {
                Value::I64(n) => append(items, *n),
                _ => Ok(false),
            },
            Plains::U64s(items) => match value {
                Value::U64(n) => append(items, *n),
                _ => Ok(false),
            },
            Plains::Doubles(items) => match value {
                Value::Double(bits) => append(items, *bits),
                _ => Ok(false),
            },
        }
    }

    /// The allocator of the list.
    pub(super) fn allocator(&self) -> Global {
        match self {
            Plains::Bytes(items) => *items.allocator(),
            Plains::Bools(items) => *items.allocator(),
            Plains::I16s(items) => *items.allocator(),
            Plains::U16s(items) => *items.allocator(),
            Plains::I32s(items) => *items.allocator(),
            Plains::U32s(items) => *items.allocator(),
            Plains::I64s(items) => *items.allocator(),
            Plains::U64s(items) => *items.allocator(),
            Plains::Doubles(items) => *items.allocator(),
        }
    }
}
