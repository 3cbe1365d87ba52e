//! The spelling of types, and whether they keep within the limits of a signature.

ghost use Rattle.std.specs.Prelude.{◌≡◌, ◌++◌, ◌+◌, ◌≤◌, min, max, ◌↔◌, length, take, OnOk, OnErr, map, IsTrue};
ghost use Rattle.atspi_types.specs.Kinds.{kinds_of, kind, no_kinds};
ghost use Rattle.atspi_types.specs.KindView.{kind_of, kinds_in};
ghost use Rattle.atspi_types.specs.Signatures.{type_bytes, signature_bytes, FitsSignature};
ghost use Rattle.atspi_types.specs.inner.Extents.{IsExtentOf, IsExtent};

use super::shape::Shape;
use super::{Ty, Tys};
use atspi_base::{Bytes, NoMemory};

/// How far types reach: the bytes of their spelling, counted up to 256, and how deep arrays stand in arrays and structs
/// in structs, counted up to 33.
#[derive(Clone, Copy)]
pub struct Extent {
    bytes: u32,
    arrays: u32,
    structs: u32,
}

impl Extent {
    /// No types.
    pub fn nothing() -> Extent
        ensures bytes { result.bytes ≡ 0 }
        ensures arrays { result.arrays ≡ 0 }
        ensures structs { result.structs ≡ 0 }
    {
        Extent {
            bytes: 0,
            arrays: 0,
            structs: 0,
        }
    }

    /// These types and others behind them.
    pub fn and(self, other: Extent) -> Extent
        ensures bytes { result.bytes ≡ min (self.bytes + other.bytes) 256 }
        ensures arrays { result.arrays ≡ max self.arrays other.arrays }
        ensures structs { result.structs ≡ max self.structs other.structs }
    {
        Extent {
            bytes: self.bytes.saturating_add(other.bytes).min(256),
            arrays: self.arrays.max(other.arrays),
            structs: self.structs.max(other.structs),
        }
    }

    /// These types in a container of so many bytes more, which is an array or a struct or neither.
    pub fn within(self, bytes: u32, arrays: u32, structs: u32) -> Extent
        ensures bytes { result.bytes ≡ min (self.bytes + bytes) 256 }
        ensures arrays { result.arrays ≡ min (self.arrays + arrays) 33 }
        ensures structs { result.structs ≡ min (self.structs + structs) 33 }
    {
        Extent {
            bytes: self.bytes.saturating_add(bytes).min(256),
            arrays: self.arrays.saturating_add(arrays).min(33),
            structs: self.structs.saturating_add(structs).min(33),
        }
    }

    /// Whether types that reach so far keep within the limits.
    pub fn fits(self) -> bool
        ensures { IsTrue result ↔ ((self.bytes ≤ 255) × (self.arrays ≤ 32) × (self.structs ≤ 32)) }
    {
        self.bytes <= 255 && self.arrays <= 32 && self.structs <= 32
    }
}

impl Ty {
    /// How far the type reaches.
    #[cycle(extent)]
    pub(crate) fn extent(&self) -> Extent
        ensures { IsExtentOf result (kind_of self.now) }
    {
        match self {
            Ty::Array(element) => element.extent().within(1, 1, 0),
            Ty::Struct(fields) => fields.extent().within(2, 0, 1),
            Ty::Dict(entry) => entry.key.extent().and(entry.value.extent()).within(3, 1, 0),
            Ty::Byte
            | Ty::Bool
            | Ty::I16
            | Ty::U16
            | Ty::I32
            | Ty::U32
            | Ty::I64
            | Ty::U64
            | Ty::Double
            | Ty::Text
            | Ty::Path
            | Ty::Sig
            | Ty::Variant => Extent::nothing().within(1, 0, 0),
        }
    }

    /// Whether the type alone keeps within the limits of a signature.
    pub fn fits_signature(&self) -> bool
        ensures { IsTrue result ↔ FitsSignature (kind (kind_of self.now) no_kinds) }
    {
        self.extent().fits()
    }

    /// Appends the spelling of the type. After want of memory `out` is as before.
    pub fn write(&self, out: &mut Bytes) -> Result<(), NoMemory>
        ensures ok { OnOk result (out.new ≡ out.old ++ type_bytes (kind_of self.now)) }
        ensures front { take (length out.old) out.new ≡ out.old }
        ensures err { OnErr result (out.new ≡ out.old) }
    {
        let len = out.len();
        let written = self.spell(out);
        if written.is_err() {
            out.truncate(len);
        }
        written
    }

    /// Appends the spelling of the type. After want of memory a front of it was appended.
    #[cycle(write)]
    pub(crate) fn spell(&self, out: &mut Bytes) -> Result<(), NoMemory>
        ensures ok { OnOk result (out.new ≡ out.old ++ type_bytes (kind_of self.now)) }
        ensures front { take (length out.old) out.new ≡ out.old }
    {
        match self.shape() {
            Shape::Code(code) => out.push(code),
            Shape::Array(element) => {
                out.push(b'a')?;
                element.spell(out)
            }
            Shape::Struct(fields) => {
                out.push(b'(')?;
                fields.spell(out)?;
                out.push(b')')
            }
            Shape::Dict(key, value) => {
                out.extend(b"a{")?;
                key.spell(out)?;
                value.spell(out)?;
                out.push(b'}')
            }
        }
    }
}

impl Tys {
    /// How far the types reach.
    #[cycle(extent)]
    fn extent(&self) -> Extent
        ensures { IsExtent result (kinds_of (kinds_in self.now)) }
    {
        let mut all = Extent::nothing();
        for ty in &self.items {
            all = all.and(ty.extent());
        }
        all
    }

    /// Whether the types keep within the limits of a signature: at most 255 bytes, 32 arrays in one another and 32
    /// structs in one another.
    pub fn fits_signature(&self) -> bool
        ensures { IsTrue result ↔ FitsSignature (kinds_of (kinds_in self.now)) }
    {
        self.extent().fits()
    }

    /// Appends the spelling of the types. After want of memory `out` is as before.
    pub fn write(&self, out: &mut Bytes) -> Result<(), NoMemory>
        ensures ok { OnOk result (out.new ≡ out.old ++ signature_bytes (kinds_of (kinds_in self.now))) }
        ensures front { take (length out.old) out.new ≡ out.old }
        ensures err { OnErr result (out.new ≡ out.old) }
    {
        let len = out.len();
        let written = self.spell(out);
        if written.is_err() {
            out.truncate(len);
        }
        written
    }

    /// Appends the spelling of the types. After want of memory a front of it was appended.
    #[cycle(write)]
    fn spell(&self, out: &mut Bytes) -> Result<(), NoMemory>
        ensures ok { OnOk result (out.new ≡ out.old ++ signature_bytes (kinds_of (kinds_in self.now))) }
        ensures front { take (length out.old) out.new ≡ out.old }
    {
        for ty in &self.items {
            ty.spell(out)?;
        }
        Ok(())
    }
}
