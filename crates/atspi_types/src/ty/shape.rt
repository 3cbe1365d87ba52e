//! One level of a type.

ghost use Rattle.atspi_types.specs.KindView.{kind_of};
ghost use Rattle.atspi_types.specs.inner.Shapes.{IsShapeOf};

use super::{Ty, Tys};

/// One level of a type: the code of a type of one byte, or a container with the types in it.
#[derive(Clone, Copy)]
pub enum Shape<'a> {
    Code(u8),
    Array(&'a Ty),
    Struct(&'a Tys),
    /// A key and a value.
    Dict(&'a Ty, &'a Ty),
}

impl Ty {
    /// The outermost level of the type.
    pub(crate) fn shape(&self) -> Shape<'_>
        ensures { IsShapeOf result (kind_of self.now) }
    {
        match self {
            Ty::Byte => Shape::Code(b'y'),
            Ty::Bool => Shape::Code(b'b'),
            Ty::I16 => Shape::Code(b'n'),
            Ty::U16 => Shape::Code(b'q'),
            Ty::I32 => Shape::Code(b'i'),
            Ty::U32 => Shape::Code(b'u'),
            Ty::I64 => Shape::Code(b'x'),
            Ty::U64 => Shape::Code(b't'),
            Ty::Double => Shape::Code(b'd'),
            Ty::Text => Shape::Code(b's'),
            Ty::Path => Shape::Code(b'o'),
            Ty::Sig => Shape::Code(b'g'),
            Ty::Variant => Shape::Code(b'v'),
            Ty::Array(element) => Shape::Array(element),
            Ty::Struct(fields) => Shape::Struct(fields),
            Ty::Dict(entry) => Shape::Dict(&entry.key, &entry.value),
        }
    }
}
