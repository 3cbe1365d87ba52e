//! Whether types are lawful.

ghost use Rattle.std.specs.Prelude.{◌↔◌, IsTrue};
ghost use Rattle.atspi_types.specs.Kinds.{kinds_of, IsLawful, AreLawful};
ghost use Rattle.atspi_types.specs.KindView.{kind_of, kinds_in};

use super::shape::Shape;
use super::{Ty, Tys};

impl Ty {
    /// Whether the type is lawful: no struct in it is empty, and each key is basic (D-Bus Specification, "Type
    /// System").
    #[cycle(lawful)]
    pub fn is_lawful(&self) -> bool
        ensures { IsTrue result ↔ IsLawful (kind_of self.now) }
    {
        match self.shape() {
            Shape::Code(_) => true,
            Shape::Array(element) => element.is_lawful(),
            Shape::Struct(fields) => !fields.is_empty() && fields.are_lawful(),
            Shape::Dict(key, value) => key.is_basic() && value.is_lawful(),
        }
    }
}

impl Tys {
    /// Whether each of the types is lawful.
    #[cycle(lawful)]
    pub fn are_lawful(&self) -> bool
        ensures { IsTrue result ↔ AreLawful (kinds_of (kinds_in self.now)) }
    {
        for ty in self.as_slice() {
            if !ty.is_lawful() {
                return false;
            }
        }
        true
    }
}
