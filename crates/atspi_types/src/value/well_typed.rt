//! Whether values are well typed.

ghost use Rattle.std.specs.Prelude.{◌≡◌, ◌↔◌, IsTrue, IfSome};
ghost use Rattle.atspi_types.specs.Borrowed.{ref_data, run_data};
ghost use Rattle.atspi_types.specs.Data.{items_of, entries_of, type_of, IsWellTyped, AreWellTyped, AllHaveType};
ghost use Rattle.atspi_types.specs.Data.{AllHaveTypes};
ghost use Rattle.atspi_types.specs.DataView.{data_of, all_data, all_pairs};
ghost use Rattle.atspi_types.specs.KindView.{kind_of};

use super::{Pairs, Value, Values};
use crate::borrowed::{Run, ValueRef};
use crate::ty::Ty;

impl Value {
    /// Whether the value is well typed: its types are lawful, no struct is empty, and each element, key and value has
    /// the type that is named for it (D-Bus Specification, "Type System").
    pub fn is_well_typed(&self) -> bool
        ensures { IsTrue result ↔ IsWellTyped (data_of self.now) }
    {
        self.borrowed().is_well_typed()
    }
}

impl ValueRef<'_> {
    /// Whether the value is well typed.
    #[cycle(typed)]
    fn is_well_typed(self) -> bool
        ensures { IsTrue result ↔ IsWellTyped (ref_data self.entry) }
    {
        match self {
            ValueRef::Array(element, values) => {
                element.is_lawful() && values.are_well_typed_as(element)
            }
            ValueRef::Struct(fields) => fields.len() != 0 && fields.are_well_typed(),
            ValueRef::Dict(key, value, pairs) => {
                key.is_basic() && value.is_lawful() && pairs.are_well_typed_as(key, value)
            }
            ValueRef::Variant(ty, value) => {
                ty.is_lawful() && value.borrowed().is_well_typed_as(ty)
            }
            ValueRef::Byte(_)
            | ValueRef::Bool(_)
            | ValueRef::I16(_)
            | ValueRef::U16(_)
            | ValueRef::I32(_)
            | ValueRef::U32(_)
            | ValueRef::I64(_)
            | ValueRef::U64(_)
            | ValueRef::Double(_)
            | ValueRef::Text(_)
            | ValueRef::Path(_)
            | ValueRef::Sig(_) => true,
        }
    }

    /// Whether the value has the type and is well typed.
    #[cycle(typed)]
    fn is_well_typed_as(self, ty: &Ty) -> bool
        ensures { IsTrue result
            ↔ ((type_of (ref_data self.entry) ≡ kind_of ty.now) × IsWellTyped (ref_data self.entry)) }
    {
        self.has_type(ty) && self.is_well_typed()
    }
}

impl Run<'_> {
    /// The type of the numbers or booleans of the run; none for a run of values.
    fn plain_type(self) -> Option<Ty>
        ensures { IfSome result (λ ty. AllHaveType (kind_of ty) (items_of (run_data self.entry))) }
    {
        match self {
            Run::Bytes(_) => Some(Ty::Byte),
            Run::Bools(_) => Some(Ty::Bool),
            Run::I16s(_) => Some(Ty::I16),
            Run::U16s(_) => Some(Ty::U16),
            Run::I32s(_) => Some(Ty::I32),
            Run::U32s(_) => Some(Ty::U32),
            Run::I64s(_) => Some(Ty::I64),
            Run::U64s(_) => Some(Ty::U64),
            Run::Doubles(_) => Some(Ty::Double),
            Run::Values(_) => None,
        }
    }
}

impl Values {
    /// Whether each of the values is well typed.
    #[cycle(typed)]
    pub fn are_well_typed(&self) -> bool
        ensures { IsTrue result ↔ AreWellTyped (items_of (all_data self.now)) }
    {
        if self.run().plain_type().is_some() {
            return true;
        }
        for i in 0..self.len() {
            if !self.at(i).is_well_typed() {
                return false;
            }
        }
        true
    }

    /// Whether each of the values has the type and is well typed. For numbers and booleans it is one comparison.
    #[cycle(typed)]
    fn are_well_typed_as(&self, ty: &Ty) -> bool
        ensures { IsTrue result ↔ AllHaveType (kind_of ty.now) (items_of (all_data self.now)) }
    {
        if let Some(plain) = self.run().plain_type() {
            return self.len() == 0 || ty.is(&plain);
        }
        for i in 0..self.len() {
            if !self.at(i).is_well_typed_as(ty) {
                return false;
            }
        }
        true
    }
}

impl Pairs {
    /// Whether each key and each value has its type and is well typed.
    #[cycle(typed)]
    fn are_well_typed_as(&self, key: &Ty, value: &Ty) -> bool
        ensures { IsTrue result ↔ AllHaveTypes (kind_of key.now) (kind_of value.now) (entries_of (all_pairs self.now)) }
    {
        for pair in self.as_slice() {
            if !pair.0.borrowed().is_well_typed_as(key)
                || !pair.1.borrowed().is_well_typed_as(value)
            {
                return false;
            }
        }
        true
    }
}
