//! One type, and several, as the codes that spell them.

ghost use Rattle.std.specs.Prelude.{◌≡◌, IsTrue, length};
ghost use Rattle.atspi_marshal_in_place.specs.codes.Codes.{kinds_at, spells};
ghost use Rattle.atspi_marshal_in_place.specs.codes.Codes as definitions;

use crate::codes::first::first_len;
use crate::codes::parsing::check;
use atspi_types::Fault;

/// One lawful type within the limits of a signature (D-Bus Specification, "Type System"), as the codes that spell it.
#[derive(Clone, Copy)]
pub struct TyRef<'a> {
    codes: &'a [u8],
    ghost one: { length (kinds_at codes.now) ≡ 1 },
}

/// Several lawful types within the limits of a signature, or none, as the codes that spell them: `next` hands out the
/// first and keeps the others.
#[derive(Clone, Copy)]
pub struct TysRef<'a> {
    codes: &'a [u8],
    ghost all: { IsTrue (spells codes.now) },
}

/// The types of a dictionary's entries.
#[derive(Clone, Copy)]
pub struct EntryRef<'a> {
    pub key: TyRef<'a>,
    pub value: TyRef<'a>,
}

impl<'a> TysRef<'a> {
    ghost use Rattle.std.specs.Prelude.{IfOk, IfErr, IsOkAnd, Ok, ◌↔◌, [], ◌∷◌, ◌==◌, IfSome, IsSome, length};
    ghost use Rattle.atspi_types.specs.Kinds.{Kinds, kinds_of};
    ghost use Rattle.atspi_types.specs.Signatures.{signature_bytes, IsSignature};
    ghost use Rattle.atspi_types.specs.SignatureFaults.{IsFirstSignatureFault};
    ghost use Rattle.atspi_types.specs.SignatureReading.{signature_in};
    ghost use Rattle.atspi_marshal_in_place.specs.codes.TyRefs.{ref_kind, refs_kinds, TypeComes, refs_read};

    /// The types that the bytes spell (D-Bus Specification, "Type System"). Refused with the first fault, of the
    /// reasons 1 to 9.
    pub fn parse(bytes: &'a [u8]) -> Result<TysRef<'a>, Fault>
        // What is read is spelled so.
        ensures found { IfOk result (λ types. bytes.now ≡ signature_bytes (kinds_of (refs_kinds types))) }
        ensures within { IfOk result (λ types. IsSignature (kinds_of (refs_kinds types))) }
        // What is spelled so is read.
        ensures only { (ks : Kinds) → IsSignature ks → bytes.now ≡ signature_bytes ks
            → IsOkAnd result (λ types. kinds_of (refs_kinds types) ≡ ks) }
        // Of all that is wrong the least is told.
        ensures first { IfErr result (λ fault. IsFirstSignatureFault bytes.now fault.place fault.reason) }
        ensures exact { refs_read result ≡ signature_in bytes.now }
    {
        TysRef::read(bytes)
    }

    /// The types that the bytes are known to spell, since they were read once: they are not looked at again.
    #[inline(always)]
    pub fn known(bytes: &'a [u8]) -> TysRef<'a>
        requires { IsTrue (spells bytes.now) }
        ensures { signature_in bytes.now ≡ Ok (refs_kinds result) }
    {
        TysRef { codes: bytes }
    }

    fn read(bytes: &'a [u8]) -> Result<TysRef<'a>, Fault>
        ensures { refs_read result ≡ signature_in bytes.now }
    {
        check(bytes)?;
        Ok(TysRef { codes: bytes })
    }

    /// No types.
    pub fn none() -> TysRef<'a>
        ensures { refs_kinds result ≡ [] }
    {
        TysRef { codes: &[] }
    }

    /// The next type. Behind it stand the others; where there is none, none comes later.
    #[inline(always)]
    pub fn next(&mut self) -> Option<TyRef<'a>>
        ensures { TypeComes result (refs_kinds self.old) (refs_kinds self.new) }
    {
        if self.codes.is_empty() {
            return None;
        }
        let codes = self.codes;
        let len = first_len(codes);
        self.codes = &codes[len..];
        Some(TyRef {
            codes: &codes[..len],
        })
    }

    /// Whether there is no type.
    #[inline(always)]
    pub fn is_empty(self) -> bool
        ensures { IsTrue result ↔ (refs_kinds self.entry ≡ []) }
    {
        self.codes.is_empty()
    }

    /// The type, where it is one alone.
    pub fn single(self) -> Option<TyRef<'a>>
        ensures is { IsSome result ↔ (length (refs_kinds self.entry) ≡ 1) }
        ensures ty { IfSome result (λ t. refs_kinds self.entry ≡ ref_kind t ∷ []) }
    {
        let codes = self.codes;
        if codes.is_empty() {
            return None;
        }
        if first_len(codes) != codes.len() {
            return None;
        }
        Some(TyRef { codes })
    }

    /// The codes that spell the types.
    pub fn codes(self) -> &'a [u8]
        ensures spelled { result.now ≡ signature_bytes (kinds_of (refs_kinds self.entry)) }
        ensures within { IsSignature (kinds_of (refs_kinds self.entry)) }
    {
        self.codes
    }
}

impl<'a> TyRef<'a> {
    ghost use Rattle.std.specs.Prelude.{Ok, [], ◌∷◌, ◌↔◌, IfSome, IsSome};
    ghost use Rattle.atspi_types.specs.Kinds.{no_kinds, kind, array, structure, dictionary, kinds_of};
    ghost use Rattle.atspi_types.specs.Signatures.{type_bytes, IsSignature};
    ghost use Rattle.atspi_types.specs.Kinds.{alignment, is_basic};
    ghost use Rattle.atspi_types.specs.SignatureReading.{signature_in};
    ghost use Rattle.atspi_marshal_in_place.specs.codes.Codes.{head_code, leaf_of, is_array, is_structure};
    ghost use Rattle.atspi_marshal_in_place.specs.codes.Codes.{is_dictionary};
    ghost use Rattle.atspi_marshal_in_place.specs.codes.TyRefs.{ref_kind, refs_kinds, ReadsOne};

    /// The one type that the bytes spell; `None` where they spell none or several. Refused with the first fault, of the
    /// reasons 1 to 9.
    pub fn parse(bytes: &'a [u8]) -> Result<Option<TyRef<'a>>, Fault>
        ensures { ReadsOne result (signature_in bytes.now) }
    {
        let types = TysRef::parse(bytes)?;
        Ok(types.single())
    }

    /// The one type that the bytes are known to spell, since they were read once: they are not looked at again.
    #[inline(always)]
    pub fn known(bytes: &'a [u8]) -> TyRef<'a>
        requires { length (kinds_at bytes.now) ≡ 1 }
        ensures { signature_in bytes.now ≡ Ok (ref_kind result ∷ []) }
    {
        TyRef { codes: bytes }
    }

    /// The code that the type begins with.
    #[inline(always)]
    pub fn code(self) -> u8
        ensures head { result ≡ head_code (ref_kind self.entry) }
        // All types but arrays, dictionaries and structs are told by it alone.
        ensures leaf { (result ≡ 97 → ⊥) → (result ≡ 40 → ⊥) → ref_kind self.entry ≡ leaf_of result }
    {
        self.codes[0]
    }

    /// Whether the type is basic, that is, no container.
    #[inline(always)]
    pub fn is_basic(self) -> bool
        ensures { result ≡ is_basic (ref_kind self.entry) }
    {
        code_is_basic(self.codes[0])
    }

    /// The place of a value of the type is a multiple of this many bytes.
    #[inline(always)]
    pub fn alignment(self) -> usize
        ensures { result ≡ alignment (ref_kind self.entry) }
    {
        code_alignment(self.codes[0])
    }

    /// Whether the two are the same type.
    pub fn is(self, other: TyRef<'_>) -> bool
        ensures { IsTrue result ↔ (ref_kind self.entry ≡ ref_kind other.entry) }
    {
        self.codes == other.codes
    }

    /// The codes that spell the type.
    pub fn codes(self) -> &'a [u8]
        ensures spelled { result.now ≡ type_bytes (ref_kind self.entry) }
        ensures within { IsSignature (kind (ref_kind self.entry) no_kinds) }
    {
        self.codes
    }

    /// The type of the elements, exactly where it is an array and no dictionary.
    #[inline(always)]
    pub fn element(self) -> Option<TyRef<'a>>
        ensures is { IsSome result ↔ IsTrue (is_array (ref_kind self.entry)) }
        ensures element { IfSome result (λ t. ref_kind self.entry ≡ array (ref_kind t)) }
    {
        let codes = self.codes;
        if codes[0] != b'a' {
            return None;
        }
        if codes[1] == b'{' {
            return None;
        }
        Some(TyRef { codes: &codes[1..] })
    }

    /// The types of the fields, exactly where it is a struct.
    #[inline(always)]
    pub fn fields(self) -> Option<TysRef<'a>>
        ensures is { IsSome result ↔ IsTrue (is_structure (ref_kind self.entry)) }
        ensures fields { IfSome result (λ ts. ref_kind self.entry ≡ structure (kinds_of (refs_kinds ts))) }
    {
        let codes = self.codes;
        if codes[0] != b'(' {
            return None;
        }
        Some(TysRef {
            codes: &codes[1..codes.len() - 1],
        })
    }

    /// The types of the key and the value, exactly where it is a dictionary.
    #[inline(always)]
    pub fn entry(self) -> Option<EntryRef<'a>>
        ensures is { IsSome result ↔ IsTrue (is_dictionary (ref_kind self.entry)) }
        ensures entry { IfSome result (λ e. ref_kind self.entry ≡ dictionary (ref_kind e.key) (ref_kind e.value)) }
    {
        let codes = self.codes;
        if codes[0] != b'a' {
            return None;
        }
        if codes[1] != b'{' {
            return None;
        }
        Some(EntryRef {
            // A key is basic, so its type has one code.
            key: TyRef {
                codes: &codes[2..3],
            },
            value: TyRef {
                codes: &codes[3..codes.len() - 1],
            },
        })
    }
}

/// Whether a type that begins with the code is basic.
#[inline(always)]
fn code_is_basic(code: u8) -> bool
    ensures { result ≡ definitions.code_is_basic code }
{
    code != b'a' && code != b'(' && code != b'v'
}

/// The alignment of a type that begins with the code.
#[inline(always)]
fn code_alignment(code: u8) -> usize
    ensures { result ≡ definitions.code_alignment code }
{
    match code {
        b'y' => 1,
        b'g' => 1,
        b'v' => 1,
        b'n' => 2,
        b'q' => 2,
        b'x' => 8,
        b't' => 8,
        b'd' => 8,
        b'(' => 8,
        _ => 4,
    }
}
