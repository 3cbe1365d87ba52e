//! The types of values: whether they keep within the limits of a signature, and their spelling.

ghost use Rattle.std.specs.Prelude.{◌≡◌, ◌++◌, ◌↔◌, length, take, OnOk, OnErr, IsTrue};
ghost use Rattle.atspi_types.specs.Borrowed.{ref_data};
ghost use Rattle.atspi_types.specs.Data.{items_of, type_of, types_of};
ghost use Rattle.atspi_types.specs.DataView.{all_data};
ghost use Rattle.atspi_types.specs.inner.Extents.{IsExtentOf, IsExtent};
ghost use Rattle.atspi_types.specs.Signatures.{type_bytes, signature_bytes, FitsSignature};

use super::Values;
use crate::borrowed::ValueRef;
use crate::ty::Extent;
use atspi_base::{Bytes, NoMemory};

impl ValueRef<'_> {
    /// How far the type of the value reaches.
    #[cycle(reach)]
    fn extent(self) -> Extent
        ensures { IsExtentOf result (type_of (ref_data self.entry)) }
    {
        match self {
            ValueRef::Array(element, _) => element.extent().within(1, 1, 0),
            ValueRef::Struct(fields) => fields.extent().within(2, 0, 1),
            ValueRef::Dict(key, value, _) => key.extent().and(value.extent()).within(3, 1, 0),
            ValueRef::Byte(_)
            | ValueRef::Bool(_)
            | ValueRef::I16(_)
            | ValueRef::U16(_)
            | ValueRef::I32(_)
            | ValueRef::U32(_)
            | ValueRef::I64(_)
            | ValueRef::U64(_)
            | ValueRef::Double(_)
            | ValueRef::Text(_)
            | ValueRef::Path(_)
            | ValueRef::Sig(_)
            | ValueRef::Variant(_, _) => Extent::nothing().within(1, 0, 0),
        }
    }

    /// Appends the spelling of the value's type. After want of memory a front of it was appended.
    #[cycle(spell)]
    fn spell_type(self, out: &mut Bytes) -> Result<(), NoMemory>
        ensures ok { OnOk result (out.new ≡ out.old ++ type_bytes (type_of (ref_data self.entry))) }
        ensures front { take (length out.old) out.new ≡ out.old }
    {
        match self {
            ValueRef::Byte(_) => out.push(b'y'),
            ValueRef::Bool(_) => out.push(b'b'),
            ValueRef::I16(_) => out.push(b'n'),
            ValueRef::U16(_) => out.push(b'q'),
            ValueRef::I32(_) => out.push(b'i'),
            ValueRef::U32(_) => out.push(b'u'),
            ValueRef::I64(_) => out.push(b'x'),
            ValueRef::U64(_) => out.push(b't'),
            ValueRef::Double(_) => out.push(b'd'),
            ValueRef::Text(_) => out.push(b's'),
            ValueRef::Path(_) => out.push(b'o'),
            ValueRef::Sig(_) => out.push(b'g'),
            ValueRef::Variant(_, _) => out.push(b'v'),
            ValueRef::Array(element, _) => {
                out.push(b'a')?;
                element.spell(out)
            }
            ValueRef::Struct(fields) => {
                out.push(b'(')?;
                fields.spell_types(out)?;
                out.push(b')')
            }
            ValueRef::Dict(key, value, _) => {
                out.extend(b"a{")?;
                key.spell(out)?;
                value.spell(out)?;
                out.push(b'}')
            }
        }
    }
}

impl Values {
    /// How far the types of the values reach.
    #[cycle(reach)]
    fn extent(&self) -> Extent
        ensures { IsExtent result (types_of (items_of (all_data self.now))) }
    {
        let mut all = Extent::nothing();
        for i in 0..self.len() {
            all = all.and(self.at(i).extent());
        }
        all
    }

    /// Whether the types of the values keep within the limits of a signature: at most 255 bytes, 32 arrays in one
    /// another and 32 structs in one another.
    pub fn fits_signature(&self) -> bool
        ensures { IsTrue result ↔ FitsSignature (types_of (items_of (all_data self.now))) }
    {
        self.extent().fits()
    }

    /// Appends the spelling of the values' types (D-Bus Specification, "Type System"). After want of memory `out` is as
    /// before.
    pub fn write_types(&self, out: &mut Bytes) -> Result<(), NoMemory>
        ensures ok { OnOk result (out.new ≡ out.old ++ signature_bytes (types_of (items_of (all_data self.now)))) }
        ensures front { take (length out.old) out.new ≡ out.old }
        ensures err { OnErr result (out.new ≡ out.old) }
    {
        let len = out.len();
        let written = self.spell_types(out);
        if written.is_err() {
            out.truncate(len);
        }
        written
    }

    /// Appends the spelling of the values' types. After want of memory a front of it was appended.
    #[cycle(spell)]
    fn spell_types(&self, out: &mut Bytes) -> Result<(), NoMemory>
        ensures ok { OnOk result (out.new ≡ out.old ++ signature_bytes (types_of (items_of (all_data self.now)))) }
        ensures front { take (length out.old) out.new ≡ out.old }
    {
        for i in 0..self.len() {
            self.at(i).spell_type(out)?;
        }
        Ok(())
    }
}
