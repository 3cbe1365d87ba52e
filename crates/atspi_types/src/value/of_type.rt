//! Whether values have a type. A value is compared with the type, and no type is built.

ghost use Rattle.std.specs.Prelude.{◌≡◌, ◌↔◌, IsTrue};
ghost use Rattle.atspi_types.specs.Borrowed.{ref_data};
ghost use Rattle.atspi_types.specs.Data.{items_of, type_of, types_of};
ghost use Rattle.atspi_types.specs.DataView.{data_of, all_data};
ghost use Rattle.atspi_types.specs.Kinds.{kinds_of};
ghost use Rattle.atspi_types.specs.KindView.{kind_of, kinds_in};

use super::{Value, Values};
use crate::borrowed::ValueRef;
use crate::ty::{Shape, Ty, Tys};

impl Value {
    /// Whether the value has the type.
    pub fn has_type(&self, ty: &Ty) -> bool
        ensures { IsTrue result ↔ (type_of (data_of self.now) ≡ kind_of ty.now) }
    {
        self.borrowed().has_type(ty)
    }
}

impl ValueRef<'_> {
    /// Whether the value has the type.
    #[cycle(having)]
    pub(super) fn has_type(self, ty: &Ty) -> bool
        ensures { IsTrue result ↔ (type_of (ref_data self.entry) ≡ kind_of ty.now) }
    {
        match self {
            ValueRef::Byte(_) => Ty::Byte.is(ty),
            ValueRef::Bool(_) => Ty::Bool.is(ty),
            ValueRef::I16(_) => Ty::I16.is(ty),
            ValueRef::U16(_) => Ty::U16.is(ty),
            ValueRef::I32(_) => Ty::I32.is(ty),
            ValueRef::U32(_) => Ty::U32.is(ty),
            ValueRef::I64(_) => Ty::I64.is(ty),
            ValueRef::U64(_) => Ty::U64.is(ty),
            ValueRef::Double(_) => Ty::Double.is(ty),
            ValueRef::Text(_) => Ty::Text.is(ty),
            ValueRef::Path(_) => Ty::Path.is(ty),
            ValueRef::Sig(_) => Ty::Sig.is(ty),
            ValueRef::Variant(_, _) => Ty::Variant.is(ty),
            ValueRef::Array(element, _) => match ty.shape() {
                Shape::Array(due) => element.is(due),
                _ => false,
            },
            ValueRef::Struct(fields) => match ty.shape() {
                Shape::Struct(due) => fields.have_types(due),
                _ => false,
            },
            ValueRef::Dict(key, value, _) => match ty.shape() {
                Shape::Dict(due_key, due_value) => key.is(due_key) && value.is(due_value),
                _ => false,
            },
        }
    }
}

impl Values {
    /// Whether the values have the types, one by one.
    #[cycle(having)]
    fn have_types(&self, due: &Tys) -> bool
        ensures { IsTrue result ↔ (types_of (items_of (all_data self.now)) ≡ kinds_of (kinds_in due.now)) }
    {
        let types = due.as_slice();
        if self.len() != types.len() {
            return false;
        }
        for i in 0..types.len() {
            if !self.at(i).has_type(&types[i]) {
                return false;
            }
        }
        true
    }
}
