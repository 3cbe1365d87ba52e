//! Types of values.

ghost use Rattle.std.specs.Prelude.{◌≡◌, ◌↔◌, [], ◌∷◌, ◌++◌, IfOk, IfSome, IsSome, OnOk, OnErr, map, length, ◌==◌};
ghost use Rattle.atspi_types.specs.Kinds.{alignment, is_basic};
ghost use Rattle.atspi_types.specs.KindView.{kind_of, kinds_in};

mod lawful;
mod same;
mod shape;
mod spelling;

use atspi_base::NoMemory;
pub(crate) use shape::Shape;
pub(crate) use spelling::Extent;
use std::alloc::Global;

/// The type of a value (D-Bus Specification, "Type System"). A struct has at least one field, and a key is basic: such
/// a type is lawful.
#[derive(Drop)]
#[cycle(types)]
pub enum Ty {
    Byte,
    Bool,
    I16,
    U16,
    I32,
    U32,
    I64,
    U64,
    Double,
    Text,
    Path,
    Sig,
    Array(Box<Ty>),
    Struct(Box<Tys>),
    Variant,
    /// An array of entries, from a key to a value.
    Dict(Box<EntryType>),
}

/// The types of an entry's key and value.
#[derive(Drop)]
#[cycle(types)]
pub struct EntryType {
    pub key: Ty,
    pub value: Ty,
}

/// A list of types.
#[derive(Drop)]
#[cycle(types)]
pub struct Tys {
    items: Vec<Ty>,
}

impl Tys {
    /// No type.
    pub fn new(alloc: Global) -> Tys
        ensures { kinds_in result ≡ [] }
    {
        Tys {
            items: Vec::new(alloc),
        }
    }

    /// No type yet, with room for so many.
    pub(crate) fn with_capacity(alloc: Global, count: usize) -> Result<Tys, NoMemory>
        ensures { IfOk result (λ types. kinds_in types ≡ []) }
    {
        Ok(Tys {
            items: Vec::with_capacity(alloc, count)?,
        })
    }

    /// How many types there are.
    pub fn len(&self) -> usize
        ensures { result ≡ length (kinds_in self.now) }
    {
        self.items.len()
    }

    /// Whether there are none.
    pub fn is_empty(&self) -> bool
        ensures { result ≡ (length (kinds_in self.now) == 0) }
    {
        self.items.is_empty()
    }

    /// The types in order.
    pub fn as_slice(&self) -> &[Ty]
        ensures { map kind_of result.now ≡ kinds_in self.now }
    {
        &self.items
    }

    /// Appends a type. After want of memory the list is as before.
    pub fn push(&mut self, ty: Ty) -> Result<(), NoMemory>
        ensures ok { OnOk result (kinds_in self.new ≡ kinds_in self.old ++ kind_of ty ∷ []) }
        ensures err { OnErr result (kinds_in self.new ≡ kinds_in self.old) }
    {
        self.items.push(ty)?;
        Ok(())
    }

    /// The type, where it is one alone.
    pub(crate) fn single(self) -> Option<Ty>
        ensures is { IsSome result ↔ (length (kinds_in self) ≡ 1) }
        ensures ty { IfSome result (λ ty. kinds_in self ≡ kind_of ty ∷ []) }
    {
        let mut items = self.items;
        if items.len() == 1 { items.pop() } else { None }
    }

    /// An equal list.
    #[cycle(copy)]
    pub fn copy(&self, alloc: Global) -> Result<Tys, NoMemory>
        ensures { IfOk result (λ types. kinds_in types ≡ kinds_in self.now) }
    {
        let mut items = Vec::with_capacity(alloc, self.items.len())?;
        for ty in &self.items {
            items.push(ty.copy(alloc)?)?;
        }
        Ok(Tys { items })
    }
}

impl EntryType {
    /// Equal types.
    #[cycle(copy)]
    pub fn copy(&self, alloc: Global) -> Result<EntryType, NoMemory>
        ensures key { IfOk result (λ entry. kind_of entry.key ≡ kind_of self.now.key) }
        ensures value { IfOk result (λ entry. kind_of entry.value ≡ kind_of self.now.value) }
    {
        Ok(EntryType {
            key: self.key.copy(alloc)?,
            value: self.value.copy(alloc)?,
        })
    }
}

impl Ty {
    /// An equal type.
    #[cycle(copy)]
    pub fn copy(&self, alloc: Global) -> Result<Ty, NoMemory>
        ensures { IfOk result (λ ty. kind_of ty ≡ kind_of self.now) }
    {
        match self {
            Ty::Byte => Ok(Ty::Byte),
            Ty::Bool => Ok(Ty::Bool),
            Ty::I16 => Ok(Ty::I16),
            Ty::U16 => Ok(Ty::U16),
            Ty::I32 => Ok(Ty::I32),
            Ty::U32 => Ok(Ty::U32),
            Ty::I64 => Ok(Ty::I64),
            Ty::U64 => Ok(Ty::U64),
            Ty::Double => Ok(Ty::Double),
            Ty::Text => Ok(Ty::Text),
            Ty::Path => Ok(Ty::Path),
            Ty::Sig => Ok(Ty::Sig),
            Ty::Array(element) => Ok(Ty::Array(Box::new(alloc, element.copy(alloc)?)?)),
            Ty::Struct(types) => Ok(Ty::Struct(Box::new(alloc, types.copy(alloc)?)?)),
            Ty::Variant => Ok(Ty::Variant),
            Ty::Dict(entry) => Ok(Ty::Dict(Box::new(alloc, entry.copy(alloc)?)?)),
        }
    }

    /// Whether the type is basic, that is, no container.
    pub fn is_basic(&self) -> bool
        ensures { result ≡ is_basic (kind_of self.now) }
    {
        match self {
            Ty::Array(_) | Ty::Struct(_) | Ty::Variant | Ty::Dict(_) => false,
            _ => true,
        }
    }

    /// The place of a value of the type is a multiple of this many bytes.
    pub fn alignment(&self) -> usize
        ensures { result ≡ alignment (kind_of self.now) }
    {
        match self {
            Ty::Byte | Ty::Sig | Ty::Variant => 1,
            Ty::I16 | Ty::U16 => 2,
            Ty::Bool | Ty::I32 | Ty::U32 | Ty::Text | Ty::Path | Ty::Array(_) | Ty::Dict(_) => 4,
            Ty::I64 | Ty::U64 | Ty::Double | Ty::Struct(_) => 8,
        }
    }
}
