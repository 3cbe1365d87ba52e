//! Signatures: lists of types within the limits of the wire.

ghost use Rattle.std.specs.Prelude.{◌≡◌, [], ◌∷◌, ◌++◌, ◌↔◌, List, ℕ, IfOk, IfSome, IsSome, IsTrue, OnOk, OnErr, Ok};
ghost use Rattle.std.specs.Prelude.{length, map};
ghost use Rattle.atspi_types.specs.Kinds.{Kinds, kinds_of, AreLawful};
ghost use Rattle.atspi_types.specs.KindView.{kind_of, kinds_in};
ghost use Rattle.atspi_types.specs.Signatures.{signature_bytes, is_signature, IsSignature, FitsSignature};
ghost use Rattle.atspi_types.specs.SignatureReading.{Gives, signature_in};

use crate::fault::ReadFault;
use crate::parser::read_types;
use crate::ty::{Ty, Tys};
use atspi_base::{Bytes, NoMemory};
use std::alloc::Global;

/// A list of lawful types whose spelling has at most 255 bytes, at most 32 arrays in one another and 32 structs in one
/// another.
#[derive(Drop)]
pub struct Signature {
    types: Tys,
    ghost within: { IsTrue (is_signature (kinds_of (kinds_in types))) },
}

impl Signature {
    ghost use Rattle.atspi_types.specs.SignatureView.{signature_types, signature_kinds, TellsFirst};

    /// The types that the bytes spell (D-Bus Specification, "Type System"). Refused with the first fault, of the
    /// reasons 1 to 9.
    pub fn parse(alloc: Global, bytes: &[u8]) -> Result<Signature, ReadFault>
        // What is read is spelled so.
        ensures found { IfOk result (λ signature. bytes.now ≡ signature_bytes (signature_kinds signature)) }
        ensures within { IfOk result (λ signature. IsSignature (signature_kinds signature)) }
        // What is spelled so is read, unless memory runs out.
        ensures only { (types : Kinds) → IsSignature types → bytes.now ≡ signature_bytes types
            → Gives signature_kinds result (Ok types) }
        // Of all that is wrong the least is told.
        ensures first { TellsFirst result bytes.now }
        ensures exact { Gives signature_types result (signature_in bytes.now) }
    {
        Signature::read(alloc, bytes)
    }

    fn read(alloc: Global, bytes: &[u8]) -> Result<Signature, ReadFault>
        ensures { Gives signature_types result (signature_in bytes.now) }
    {
        let types = read_types(alloc, bytes)?;
        Ok(Signature { types })
    }

    /// The signature of lawful types; none exactly where their spelling passes 255 bytes, 32 arrays in one another or
    /// 32 structs in one another.
    pub fn of(types: Tys) -> Option<Signature>
        requires { AreLawful (kinds_of (kinds_in types)) }
        ensures fits { IsSome result ↔ FitsSignature (kinds_of (kinds_in types)) }
        ensures types { IfSome result (λ signature. signature_kinds signature ≡ kinds_of (kinds_in types)) }
    {
        if types.fits_signature() {
            Some(Signature { types })
        } else {
            None
        }
    }

    /// The types in order.
    pub fn types(&self) -> &[Ty]
        ensures types { map kind_of result.now ≡ signature_types self.now }
        ensures within { IsSignature (signature_kinds self.now) }
    {
        self.types.as_slice()
    }

    /// The type, where it is one alone.
    pub fn single(self) -> Option<Ty>
        ensures is { IsSome result ↔ (length (signature_types self) ≡ 1) }
        ensures ty { IfSome result (λ ty. signature_types self ≡ kind_of ty ∷ []) }
    {
        self.types.single()
    }

    /// Appends the spelling. After want of memory `out` is as before.
    pub fn write(&self, out: &mut Bytes) -> Result<(), NoMemory>
        ensures ok { OnOk result (out.new ≡ out.old ++ signature_bytes (signature_kinds self.now)) }
        ensures err { OnErr result (out.new ≡ out.old) }
    {
        self.types.write(out)
    }

    /// An equal signature.
    pub fn copy(&self, alloc: Global) -> Result<Signature, NoMemory>
        ensures { IfOk result (λ signature. signature_kinds signature ≡ signature_kinds self.now) }
    {
        Ok(Signature {
            types: self.types.copy(alloc)?,
        })
    }
}
