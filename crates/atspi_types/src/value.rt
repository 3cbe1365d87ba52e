//! Values.

ghost use Rattle.std.specs.Prelude.{◌≡◌, [], ◌∷◌, ◌++◌, IfOk, OnOk, OnErr, map, length, ◌<◌, slice_get, Some};
ghost use Rattle.atspi_types.specs.DataView.{data_of, kept_data, all_data, all_pairs, pair_of};
ghost use Rattle.atspi_types.specs.Borrowed.{ref_data, run_data};

mod of_type;
mod plain;
mod plains;
mod pushing;
mod types;
mod well_typed;

use self::plains::Plains;
use crate::borrowed::{Run, ValueRef};
use crate::signature::Signature;
use crate::ty::Ty;
use atspi_base::valid_names::Path;
use atspi_base::{NoMemory, Text};
use std::alloc::Global;

/// A value (D-Bus Specification, "Type System"). A double is its 64 bits. An array names the type of its elements, a
/// dictionary those of its keys and values, and a variant that of its value.
#[derive(Drop)]
#[cycle(values)]
pub enum Value {
    Byte(u8),
    Bool(bool),
    I16(i16),
    U16(u16),
    I32(i32),
    U32(u32),
    I64(i64),
    U64(u64),
    Double(u64),
    Text(Text),
    Path(Path),
    Sig(Signature),
    Array(Ty, Values),
    Struct(Values),
    Dict(Ty, Ty, Pairs),
    Variant(Ty, Box<Value>),
}

/// A list of values. Numbers and booleans of one type are kept as such, each in its own size.
#[derive(Drop)]
#[cycle(values)]
pub struct Values {
    kept: Kept,
}

/// How a list of values is kept.
#[derive(Drop)]
#[cycle(values)]
enum Kept {
    Plain(Plains),
    Values(Vec<Value>),
}

/// A list of keys and their values.
#[derive(Drop)]
#[cycle(values)]
pub struct Pairs {
    items: Vec<(Value, Value)>,
}

impl Values {
    /// No value.
    pub fn new(alloc: Global) -> Values
        ensures { all_data result ≡ [] }
    {
        Values {
            kept: Kept::Values(Vec::new(alloc)),
        }
    }

    /// How many values there are.
    pub fn len(&self) -> usize
        ensures { result ≡ length (all_data self.now) }
    {
        match &self.kept {
            Kept::Plain(plains) => plains.len(),
            Kept::Values(items) => items.len(),
        }
    }

    /// The values as they lie in memory.
    pub fn run(&self) -> Run<'_>
        ensures { run_data result ≡ all_data self.now }
    {
        match &self.kept {
            Kept::Plain(plains) => plains.run(),
            Kept::Values(items) => Run::Values(items),
        }
    }

    /// The value at an index.
    pub fn at(&self, i: usize) -> ValueRef<'_>
        requires { i < length (all_data self.now) }
        ensures { slice_get (all_data self.now) i ≡ Some (ref_data result) }
    {
        self.run().at(i)
    }

    /// An equal list.
    #[cycle(copy)]
    pub fn copy(&self, alloc: Global) -> Result<Values, NoMemory>
        ensures { IfOk result (λ values. all_data values ≡ all_data self.now) }
    {
        Ok(Values {
            kept: self.kept.copy(alloc)?,
        })
    }
}

impl Kept {
    #[cycle(copy)]
    fn copy(&self, alloc: Global) -> Result<Kept, NoMemory>
        ensures { IfOk result (λ kept. kept_data kept ≡ kept_data self.now) }
    {
        match self {
            Kept::Plain(plains) => Ok(Kept::Plain(plains.copy(alloc)?)),
            Kept::Values(values) => {
                let mut copies = Vec::with_capacity(alloc, values.len())?;
                for value in values {
                    copies.push(value.copy(alloc)?)?;
                }
                Ok(Kept::Values(copies))
            }
        }
    }
}

impl Pairs {
    /// No pair.
    pub fn new(alloc: Global) -> Pairs
        ensures { all_pairs result ≡ [] }
    {
        Pairs {
            items: Vec::new(alloc),
        }
    }

    /// How many pairs there are.
    pub fn len(&self) -> usize
        ensures { result ≡ length (all_pairs self.now) }
    {
        self.items.len()
    }

    /// The pairs in order.
    pub fn as_slice(&self) -> &[(Value, Value)]
        ensures { map pair_of result.now ≡ all_pairs self.now }
    {
        &self.items
    }

    /// Appends a key and its value. After want of memory the list is as before.
    pub fn push(&mut self, key: Value, value: Value) -> Result<(), NoMemory>
        ensures ok { OnOk result (all_pairs self.new ≡ all_pairs self.old ++ (data_of key, data_of value) ∷ []) }
        ensures err { OnErr result (all_pairs self.new ≡ all_pairs self.old) }
    {
        self.items.push((key, value))?;
        Ok(())
    }

    /// An equal list.
    #[cycle(copy)]
    pub fn copy(&self, alloc: Global) -> Result<Pairs, NoMemory>
        ensures { IfOk result (λ pairs. all_pairs pairs ≡ all_pairs self.now) }
    {
        let mut items = Vec::with_capacity(alloc, self.items.len())?;
        for pair in &self.items {
            let key = pair.0.copy(alloc)?;
            match pair.1.copy(alloc) {
                Ok(value) => items.push((key, value))?,
                Err(refused) => {
                    drop(key);
                    return Err(refused);
                }
            }
        }
        Ok(Pairs { items })
    }
}

impl Value {
    /// The value, borrowed.
    pub fn borrowed(&self) -> ValueRef<'_>
        ensures { ref_data result ≡ data_of self.now }
    {
        match self {
            Value::Byte(n) => ValueRef::Byte(*n),
            Value::Bool(b) => ValueRef::Bool(*b),
            Value::I16(n) => ValueRef::I16(*n),
            Value::U16(n) => ValueRef::U16(*n),
            Value::I32(n) => ValueRef::I32(*n),
            Value::U32(n) => ValueRef::U32(*n),
            Value::I64(n) => ValueRef::I64(*n),
            Value::U64(n) => ValueRef::U64(*n),
            Value::Double(bits) => ValueRef::Double(*bits),
            Value::Text(text) => ValueRef::Text(text),
            Value::Path(path) => ValueRef::Path(path),
            Value::Sig(signature) => ValueRef::Sig(signature),
            Value::Array(element, values) => ValueRef::Array(element, values),
            Value::Struct(fields) => ValueRef::Struct(fields),
            Value::Dict(key, value, pairs) => ValueRef::Dict(key, value, pairs),
            Value::Variant(ty, value) => ValueRef::Variant(ty, value),
        }
    }

    /// An equal value.
    #[cycle(copy)]
    pub fn copy(&self, alloc: Global) -> Result<Value, NoMemory>
        ensures { IfOk result (λ value. data_of value ≡ data_of self.now) }
    {
        match self {
            Value::Byte(n) => Ok(Value::Byte(*n)),
            Value::Bool(b) => Ok(Value::Bool(*b)),
            Value::I16(n) => Ok(Value::I16(*n)),
            Value::U16(n) => Ok(Value::U16(*n)),
            Value::I32(n) => Ok(Value::I32(*n)),
            Value::U32(n) => Ok(Value::U32(*n)),
            Value::I64(n) => Ok(Value::I64(*n)),
            Value::U64(n) => Ok(Value::U64(*n)),
            Value::Double(bits) => Ok(Value::Double(*bits)),
            Value::Text(text) => Ok(Value::Text(text.copy(alloc)?)),
            Value::Path(path) => Ok(Value::Path(path.copy(alloc)?)),
            Value::Sig(signature) => Ok(Value::Sig(signature.copy(alloc)?)),
            Value::Array(element, values) => Ok(Value::Array(
                element.copy(alloc)?,
                values.copy(alloc)?,
            )),
            Value::Struct(fields) => Ok(Value::Struct(fields.copy(alloc)?)),
            Value::Dict(key, value, pairs) => Ok(Value::Dict(
                key.copy(alloc)?,
                value.copy(alloc)?,
                pairs.copy(alloc)?,
            )),
            Value::Variant(ty, value) => {
                Ok(Value::Variant(ty.copy(alloc)?, Box::new(alloc, value.copy(alloc)?)?))
            }
        }
    }
}
