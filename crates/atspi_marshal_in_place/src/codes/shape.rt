//! What one level of a type is.

ghost use Rattle.std.specs.Prelude.{◌≡◌};
ghost use Rattle.atspi_marshal_in_place.specs.codes.Codes.{leaf_of};
ghost use Rattle.atspi_marshal_in_place.specs.codes.TyRefs.{ref_kind};
ghost use Rattle.atspi_marshal_in_place.specs.codes.Shapes.{shape_kind};

use crate::codes::types::{TyRef, TysRef};

/// One level of a type: a type of one code, or a container with the types in it.
#[derive(Clone, Copy)]
pub enum Shape<'a> {
    Byte,
    Bool,
    I16,
    U16,
    I32,
    U32,
    I64,
    U64,
    Double,
    Text,
    Path,
    Sig,
    Variant,
    Array(TyRef<'a>),
    Struct(TysRef<'a>),
    /// A key and a value.
    Dict(TyRef<'a>, TyRef<'a>),
}

/// The type that a code alone spells, of a type that is no array, no dictionary and no struct.
#[inline(always)]
fn leaf<'a>(code: u8) -> Shape<'a>
    ensures { shape_kind result ≡ leaf_of code }
{
    match code {
        b'y' => Shape::Byte,
        b'n' => Shape::I16,
        b'q' => Shape::U16,
        b'i' => Shape::I32,
        b'u' => Shape::U32,
        b'x' => Shape::I64,
        b't' => Shape::U64,
        b'd' => Shape::Double,
        b'b' => Shape::Bool,
        b's' => Shape::Text,
        b'o' => Shape::Path,
        b'g' => Shape::Sig,
        _ => Shape::Variant,
    }
}

impl<'a> TyRef<'a> {
    /// The outermost level of the type.
    #[inline(always)]
    pub fn shape(self) -> Shape<'a>
        ensures { shape_kind result ≡ ref_kind self.entry }
    {
        if let Some(element) = self.element() {
            return Shape::Array(element);
        }
        if let Some(fields) = self.fields() {
            return Shape::Struct(fields);
        }
        if let Some(entry) = self.entry() {
            return Shape::Dict(entry.key, entry.value);
        }
        leaf(self.code())
    }
}
