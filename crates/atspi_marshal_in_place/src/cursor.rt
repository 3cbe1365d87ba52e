//! Values that were passed, read where they lie, one after the other.

ghost use Rattle.std.specs.Prelude.{◌≡◌, ◌<◌, ◌≤◌, ◌↔◌, length, IsTrue};
ghost use Rattle.atspi_types.specs.Kinds.{array, number, byte};
ghost use Rattle.atspi_marshal_in_place.specs.codes.TyRefs.{ref_kind, refs_kinds};
ghost use Rattle.atspi_marshal.specs.Input.{PlacesFit};
ghost use Rattle.atspi_marshal.specs.Reading.{input_of, read, elements_at};
ghost use Rattle.atspi_marshal.specs.Faults.{entry_kind};
ghost use Rattle.atspi_marshal_in_place.specs.Known.{is_read};
ghost use Rattle.atspi_marshal_in_place.specs.Passing.{read_all};

use crate::codes::{TyRef, TysRef};
use crate::jumping::jump;
use crate::passing::fields;
use crate::plain::align_up;
use crate::text::{known_type, known_types, slice};
use atspi_marshal::{Bound, Marshalled, byte_at, u16_at, u32_at, u64_at};
use atspi_types::{Fault, Order};

/// A value that lies at a place.
#[derive(Clone, Copy)]
pub struct Item<'a> {
    input: Marshalled<'a>,
    ty: TyRef<'a>,
    levels: u8,
    bound: Bound,
    at: usize,
    ghost within: { (at ≤ bound.end) × (bound.end ≤ length input.bytes.now) × PlacesFit input.bytes.now },
    ghost known: { IsTrue (is_read (read (input_of input) levels (ref_kind ty) bound at)) },
}

/// The elements of an array that are left.
#[derive(Clone, Copy)]
pub struct Elements<'a> {
    input: Marshalled<'a>,
    ty: TyRef<'a>,
    levels: u8,
    inside: Bound,
    left: usize,
    at: usize,
    ghost within: { (at ≤ inside.end) × (inside.end ≤ length input.bytes.now) × PlacesFit input.bytes.now },
    ghost known: { IsTrue
        (is_read (elements_at (read (input_of input) levels (ref_kind ty) inside) inside.end left at)) },
}

/// The entries of a dictionary that are left.
#[derive(Clone, Copy)]
pub struct Entries<'a> {
    input: Marshalled<'a>,
    key: TyRef<'a>,
    value: TyRef<'a>,
    levels: u8,
    inside: Bound,
    left: usize,
    at: usize,
    ghost within: { (at ≤ inside.end) × (inside.end ≤ length input.bytes.now) × PlacesFit input.bytes.now },
    ghost known: { IsTrue
        (is_read
        (elements_at (read (input_of input) levels (entry_kind (ref_kind key) (ref_kind value)) inside) inside.end
        left at)) },
}

/// An entry of a dictionary.
#[derive(Clone, Copy)]
pub struct Entry<'a> {
    pub key: Item<'a>,
    pub value: Item<'a>,
}

/// The values of a body, or the fields of a struct, that are left.
#[derive(Clone, Copy)]
pub struct Fields<'a> {
    input: Marshalled<'a>,
    types: TysRef<'a>,
    levels: u8,
    bound: Bound,
    at: usize,
    ghost within: { (at ≤ bound.end) × (bound.end ≤ length input.bytes.now) × PlacesFit input.bytes.now },
    ghost known: { IsTrue (is_read (read_all (input_of input) levels (refs_kinds types) bound at)) },
}

/// Whether it is the type of arrays of bytes.
#[inline(always)]
fn is_bytes(ty: TyRef) -> bool
    ensures { IsTrue result ↔ (ref_kind ty.entry ≡ array (number byte)) }
{
    match ty.element() {
        Some(element) => element.code() == b'y',
        None => false,
    }
}

impl<'a> Fields<'a> {
    ghost use Rattle.std.specs.Prelude.{◌∷◌, IfSome};
    ghost use Rattle.atspi_marshal.specs.Input.{whole, to_end};
    ghost use Rattle.atspi_marshal_in_place.specs.Items.{item_kind, fields_data, fields_kinds, fields_read, Comes};

    /// The values of the types that stand one behind the other from a place on, and the place behind them; or the first
    /// fault. They are passed once, which keeps nothing (D-Bus Specification, "Marshaling").
    pub fn read(
        order: Order,
        bytes: &'a [u8],
        at: usize,
        types: TysRef<'a>,
    ) -> Result<(Fields<'a>, usize), Fault>
        requires { (at ≤ length bytes.now) × (length bytes.now ≤ 134217728) }
        ensures { fields_read result
            ≡ read_all (whole order bytes.now) 64 (refs_kinds types.entry) (to_end bytes.now) at }
    {
        let input = Marshalled { order, bytes };
        let bound = Bound {
            end: bytes.len(),
            reason: 19,
        };
        let end = fields(&input, 64, types, bound, at)?;
        Ok((
            Fields {
                input,
                types,
                levels: 64,
                bound,
                at,
            },
            end,
        ))
    }

    /// The next value. Behind it stand the others; where there is none, none comes later. The last one is not jumped
    /// over.
    #[inline(always)]
    pub fn next(&mut self) -> Option<Item<'a>>
        ensures comes { Comes result (fields_data self.old) (fields_data self.new) }
        ensures types { IfSome result (λ x. fields_kinds self.old ≡ item_kind x ∷ fields_kinds self.new) }
        ensures levels { IfSome result (λ x. (x.levels ≡ self.old.levels) × (self.new.levels ≡ self.old.levels)) }
    {
        let mut types = self.types;
        match types.next() {
            None => None,
            Some(ty) => {
                let item = Item {
                    input: self.input,
                    ty,
                    levels: self.levels,
                    bound: self.bound,
                    at: self.at,
                };
                if !types.is_empty() {
                    self.at = jump(&self.input, self.levels, ty, self.bound, self.at);
                }
                self.types = types;
                Some(item)
            }
        }
    }

    /// The types of the values that are left.
    #[inline(always)]
    pub fn types(self) -> TysRef<'a>
        ensures { refs_kinds result ≡ fields_kinds self.entry }
    {
        self.types
    }
}

impl<'a> Elements<'a> {
    ghost use Rattle.std.specs.Prelude.{IfSome};
    ghost use Rattle.atspi_marshal_in_place.specs.Items.{item_kind, elements_data, elements_kind, Comes};

    /// The next element. Behind it stand the others; where there is none, none comes later.
    #[inline(always)]
    pub fn next(&mut self) -> Option<Item<'a>>
        ensures comes { Comes result (elements_data self.old) (elements_data self.new) }
        ensures types { IfSome result
            (λ x. (item_kind x ≡ elements_kind self.old) × (elements_kind self.new ≡ elements_kind self.old)) }
        ensures levels { IfSome result
            (λ x. (x.levels ≡ self.old.levels) × (self.new.levels ≡ self.old.levels)
            × (self.new.left < self.old.left)) }
    {
        if self.left == 0 || self.at == self.inside.end {
            return None;
        }
        let item = Item {
            input: self.input,
            ty: self.ty,
            levels: self.levels,
            bound: self.inside,
            at: self.at,
        };
        let next = jump(&self.input, self.levels, self.ty, self.inside, self.at);
        self.left -= 1;
        self.at = next;
        Some(item)
    }

    /// The type of the elements.
    #[inline(always)]
    pub fn ty(self) -> TyRef<'a>
        ensures { ref_kind result ≡ elements_kind self.entry }
    {
        self.ty
    }
}

impl<'a> Entries<'a> {
    ghost use Rattle.std.specs.Prelude.{IfSome};
    ghost use Rattle.atspi_marshal_in_place.specs.Items.{item_kind, entries_data, key_kind, value_kind, EntryComes};

    /// The next entry. Behind it stand the others; where there is none, none comes later.
    #[inline(always)]
    pub fn next(&mut self) -> Option<Entry<'a>>
        ensures comes { EntryComes result (entries_data self.old) (entries_data self.new) }
        ensures types { IfSome result
            (λ e. (item_kind e.key ≡ key_kind self.old) × (item_kind e.value ≡ value_kind self.old)
            × (key_kind self.new ≡ key_kind self.old) × (value_kind self.new ≡ value_kind self.old)) }
        ensures levels { IfSome result
            (λ e. (e.key.levels < self.old.levels) × (e.value.levels < self.old.levels)
            × (self.new.levels ≡ self.old.levels) × (self.new.left < self.old.left)) }
    {
        let left = self.left;
        if left == 0 {
            return None;
        }
        let at = self.at;
        let inside = self.inside;
        if at == inside.end {
            return None;
        }
        let place = align_up(8, at);
        let levels = self.levels - 1;
        let key = Item {
            input: self.input,
            ty: self.key,
            levels,
            bound: inside,
            at: place,
        };
        let between = jump(&self.input, levels, self.key, inside, place);
        let value = Item {
            input: self.input,
            ty: self.value,
            levels,
            bound: inside,
            at: between,
        };
        let next = jump(&self.input, levels, self.value, inside, between);
        self.left = left - 1;
        self.at = next;
        Some(Entry { key, value })
    }

    /// The type of the keys.
    #[inline(always)]
    pub fn key_type(self) -> TyRef<'a>
        ensures { ref_kind result ≡ key_kind self.entry }
    {
        self.key
    }

    /// The type of the values.
    #[inline(always)]
    pub fn value_type(self) -> TyRef<'a>
        ensures { ref_kind result ≡ value_kind self.entry }
    {
        self.value
    }
}

impl<'a> Item<'a> {
    ghost use Rattle.std.specs.Prelude.{◌↔◌, ◌^◌, IfSome, IsSome, chars, map};
    ghost use Rattle.atspi_base.specs.Text.{HasNoZero};
    ghost use Rattle.atspi_base.specs.valid_names.Names.{IsPath};
    ghost use Rattle.std.specs.Int.{w16, w32, w64, cast_unsigned};
    ghost use Rattle.atspi_types.specs.Kinds.{byte, i16, u16, i32, u32, i64, u64, double, number, boolean, text, path};
    ghost use Rattle.atspi_types.specs.Kinds.{signature, array, variant, kinds_of};
    ghost use Rattle.atspi_types.specs.Data.{variant_data, signature_data, dictionary_data, array_data, structure_data};
    ghost use Rattle.atspi_types.specs.Data.{number_data, boolean_data, text_data, path_data, items_of};
    ghost use Rattle.atspi_marshal_in_place.specs.codes.Codes.{is_array, is_structure, is_dictionary};
    ghost use Rattle.atspi_marshal.specs.Reading.{entries_in};
    ghost use Rattle.atspi_marshal_in_place.specs.Items.{item_data, item_kind, elements_data, elements_kind};
    ghost use Rattle.atspi_marshal_in_place.specs.Items.{entries_data, key_kind, value_kind, fields_data};

    /// The type of the value.
    #[inline(always)]
    pub fn ty(self) -> TyRef<'a>
        ensures { ref_kind result ≡ item_kind self.entry }
    {
        self.ty
    }

    /// The elements, exactly where it is an array and no dictionary.
    #[inline(always)]
    pub fn elements(self) -> Option<Elements<'a>>
        ensures is { IsSome result ↔ IsTrue (is_array (item_kind self.entry)) }
        ensures elements { IfSome result
            (λ es. item_data self.entry ≡ array_data (elements_kind es) (items_of (elements_data es))) }
        ensures levels { IfSome result (λ es. es.levels < self.entry.levels) }
    {
        match self.ty.element() {
            None => None,
            Some(element) => {
                let place = align_up(4, self.at);
                let len = u32_at(&self.input, place) as usize;
                let start = align_up(element.alignment(), place + 4);
                Some(Elements {
                    input: self.input,
                    ty: element,
                    levels: self.levels - 1,
                    inside: Bound {
                        end: start + len,
                        reason: 18,
                    },
                    left: len,
                    at: start,
                })
            }
        }
    }

    /// The entries, exactly where it is a dictionary.
    #[inline(always)]
    pub fn entries(self) -> Option<Entries<'a>>
        ensures is { IsSome result ↔ IsTrue (is_dictionary (item_kind self.entry)) }
        ensures entries { IfSome result
            (λ es. item_data self.entry
            ≡ dictionary_data (key_kind es) (value_kind es) (entries_in (items_of (entries_data es)))) }
        ensures levels { IfSome result (λ es. es.levels < self.entry.levels) }
    {
        match self.ty.entry() {
            None => None,
            Some(entry) => {
                let place = align_up(4, self.at);
                let len = u32_at(&self.input, place) as usize;
                let start = align_up(8, place + 4);
                Some(Entries {
                    input: self.input,
                    key: entry.key,
                    value: entry.value,
                    levels: self.levels - 1,
                    inside: Bound {
                        end: start + len,
                        reason: 18,
                    },
                    left: len,
                    at: start,
                })
            }
        }
    }

    /// The fields, exactly where it is a struct.
    #[inline(always)]
    pub fn fields(self) -> Option<Fields<'a>>
        ensures is { IsSome result ↔ IsTrue (is_structure (item_kind self.entry)) }
        ensures fields { IfSome result (λ fs. item_data self.entry ≡ structure_data (items_of (fields_data fs))) }
        ensures levels { IfSome result (λ fs. fs.levels < self.entry.levels) }
    {
        match self.ty.fields() {
            None => None,
            Some(types) => Some(Fields {
                input: self.input,
                types,
                levels: self.levels - 1,
                bound: self.bound,
                at: align_up(8, self.at),
            }),
        }
    }

    /// The text, exactly where it is one.
    #[inline(always)]
    pub fn text(self) -> Option<&'a str>
        ensures is { IsSome result ↔ (item_kind self.entry ≡ text) }
        ensures text { IfSome result (λ s. item_data self.entry ≡ text_data (chars s.now)) }
        ensures no_zero { IfSome result (λ s. HasNoZero s.now) }
        ensures counted { IfSome result (λ s. length s.now < 2 ^ 32) }
    {
        let code = self.ty.code();
        if code != b's' {
            return None;
        }
        let place = align_up(4, self.at);
        let len = u32_at(&self.input, place) as usize;
        Some(unsafe { std::str::from_utf8_unchecked(slice(self.input.bytes, place + 4, len)) })
    }

    /// The path, exactly where it is one.
    #[inline(always)]
    pub fn path(self) -> Option<&'a str>
        ensures is { IsSome result ↔ (item_kind self.entry ≡ path) }
        ensures path { IfSome result (λ s. item_data self.entry ≡ path_data s.now) }
        ensures rule { IfSome result (λ s. IsPath s.now) }
    {
        let code = self.ty.code();
        if code != b'o' {
            return None;
        }
        let place = align_up(4, self.at);
        let len = u32_at(&self.input, place) as usize;
        Some(unsafe { std::str::from_utf8_unchecked(slice(self.input.bytes, place + 4, len)) })
    }

    /// The boolean, exactly where it is one.
    #[inline(always)]
    pub fn bool(self) -> Option<bool>
        ensures is { IsSome result ↔ (item_kind self.entry ≡ boolean) }
        ensures value { IfSome result (λ b. item_data self.entry ≡ boolean_data b) }
    {
        let code = self.ty.code();
        if code != b'b' {
            return None;
        }
        let place = align_up(4, self.at);
        Some(u32_at(&self.input, place) == 1)
    }

    /// The byte, exactly where it is one.
    #[inline(always)]
    pub fn u8(self) -> Option<u8>
        ensures is { IsSome result ↔ (item_kind self.entry ≡ number byte) }
        ensures value { IfSome result (λ n. item_data self.entry ≡ number_data byte n) }
    {
        let code = self.ty.code();
        if code != b'y' {
            return None;
        }
        let place = align_up(1, self.at);
        Some(byte_at(&self.input, place))
    }

    /// The signed number of 16 bits, exactly where it is one.
    #[inline(always)]
    pub fn i16(self) -> Option<i16>
        ensures is { IsSome result ↔ (item_kind self.entry ≡ number i16) }
        ensures value { IfSome result (λ n. item_data self.entry ≡ number_data i16 (cast_unsigned w16 n)) }
    {
        let code = self.ty.code();
        if code != b'n' {
            return None;
        }
        let place = align_up(2, self.at);
        Some(u16_at(&self.input, place).cast_signed())
    }

    /// The number of 16 bits, exactly where it is one.
    #[inline(always)]
    pub fn u16(self) -> Option<u16>
        ensures is { IsSome result ↔ (item_kind self.entry ≡ number u16) }
        ensures value { IfSome result (λ n. item_data self.entry ≡ number_data u16 n) }
    {
        let code = self.ty.code();
        if code != b'q' {
            return None;
        }
        let place = align_up(2, self.at);
        Some(u16_at(&self.input, place))
    }

    /// The signed number of 32 bits, exactly where it is one.
    #[inline(always)]
    pub fn i32(self) -> Option<i32>
        ensures is { IsSome result ↔ (item_kind self.entry ≡ number i32) }
        ensures value { IfSome result (λ n. item_data self.entry ≡ number_data i32 (cast_unsigned w32 n)) }
    {
        let code = self.ty.code();
        if code != b'i' {
            return None;
        }
        let place = align_up(4, self.at);
        Some(u32_at(&self.input, place).cast_signed())
    }

    /// The number of 32 bits, exactly where it is one.
    #[inline(always)]
    pub fn u32(self) -> Option<u32>
        ensures is { IsSome result ↔ (item_kind self.entry ≡ number u32) }
        ensures value { IfSome result (λ n. item_data self.entry ≡ number_data u32 n) }
    {
        let code = self.ty.code();
        if code != b'u' {
            return None;
        }
        let place = align_up(4, self.at);
        Some(u32_at(&self.input, place))
    }

    /// The signed number of 64 bits, exactly where it is one.
    #[inline(always)]
    pub fn i64(self) -> Option<i64>
        ensures is { IsSome result ↔ (item_kind self.entry ≡ number i64) }
        ensures value { IfSome result (λ n. item_data self.entry ≡ number_data i64 (cast_unsigned w64 n)) }
    {
        let code = self.ty.code();
        if code != b'x' {
            return None;
        }
        let place = align_up(8, self.at);
        Some(u64_at(&self.input, place).cast_signed())
    }

    /// The number of 64 bits, exactly where it is one.
    #[inline(always)]
    pub fn u64(self) -> Option<u64>
        ensures is { IsSome result ↔ (item_kind self.entry ≡ number u64) }
        ensures value { IfSome result (λ n. item_data self.entry ≡ number_data u64 n) }
    {
        let code = self.ty.code();
        if code != b't' {
            return None;
        }
        let place = align_up(8, self.at);
        Some(u64_at(&self.input, place))
    }

    /// The double, as its bits, exactly where it is one.
    #[inline(always)]
    pub fn double(self) -> Option<u64>
        ensures is { IsSome result ↔ (item_kind self.entry ≡ number double) }
        ensures value { IfSome result (λ n. item_data self.entry ≡ number_data double n) }
    {
        let code = self.ty.code();
        if code != b'd' {
            return None;
        }
        let place = align_up(8, self.at);
        Some(u64_at(&self.input, place))
    }

    /// The value in the variant, exactly where it is one.
    pub fn variant(self) -> Option<Item<'a>>
        ensures is { IsSome result ↔ (item_kind self.entry ≡ variant) }
        ensures value { IfSome result (λ x. item_data self.entry ≡ variant_data (item_kind x) (item_data x)) }
        ensures levels { IfSome result (λ x. x.levels < self.entry.levels) }
    {
        let code = self.ty.code();
        if code != b'v' {
            return None;
        }
        let len = byte_at(&self.input, self.at) as usize;
        let inner = known_type(&self.input, self.at);
        Some(Item {
            input: self.input,
            ty: inner,
            levels: self.levels - 1,
            bound: self.bound,
            at: self.at + 2 + len,
        })
    }

    /// The types of the signature, exactly where it is one.
    pub fn signature(self) -> Option<TysRef<'a>>
        ensures is { IsSome result ↔ (item_kind self.entry ≡ signature) }
        ensures types { IfSome result (λ ts. item_data self.entry ≡ signature_data (kinds_of (refs_kinds ts))) }
    {
        let code = self.ty.code();
        if code != b'g' {
            return None;
        }
        Some(known_types(&self.input, self.at))
    }

    /// The bytes, exactly where it is an array of bytes.
    #[inline(always)]
    pub fn bytes(self) -> Option<&'a [u8]>
        ensures is { IsSome result ↔ (item_kind self.entry ≡ array (number byte)) }
        ensures bytes { IfSome result
            (λ s. item_data self.entry ≡ array_data (number byte) (items_of (map (number_data byte) s.now))) }
    {
        if is_bytes(self.ty) {
            let place = align_up(4, self.at);
            let len = u32_at(&self.input, place) as usize;
            return Some(slice(self.input.bytes, place + 4, len));
        }
        None
    }
}
