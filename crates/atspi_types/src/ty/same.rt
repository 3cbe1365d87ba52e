//! Whether types are the same.

ghost use Rattle.std.specs.Prelude.{◌≡◌, ◌↔◌, IsTrue};
ghost use Rattle.atspi_types.specs.KindView.{kind_of, kinds_in};

use super::shape::Shape;
use super::{Ty, Tys};

impl Ty {
    /// Whether the types are the same.
    #[cycle(same)]
    pub fn is(&self, other: &Ty) -> bool
        ensures { IsTrue result ↔ (kind_of self.now ≡ kind_of other.now) }
    {
        match (self.shape(), other.shape()) {
            (Shape::Code(ours), Shape::Code(theirs)) => ours == theirs,
            (Shape::Array(ours), Shape::Array(theirs)) => ours.is(theirs),
            (Shape::Struct(ours), Shape::Struct(theirs)) => ours.is(theirs),
            (Shape::Dict(our_key, our_value), Shape::Dict(their_key, their_value)) => {
                our_key.is(their_key) && our_value.is(their_value)
            }
            _ => false,
        }
    }
}

impl Tys {
    /// Whether the types are the same, in the same order.
    #[cycle(same)]
    pub fn is(&self, other: &Tys) -> bool
        ensures { IsTrue result ↔ (kinds_in self.now ≡ kinds_in other.now) }
    {
        let ours = self.as_slice();
        let theirs = other.as_slice();
        if ours.len() != theirs.len() {
            return false;
        }
        for i in 0..ours.len() {
            if !ours[i].is(&theirs[i]) {
                return false;
            }
        }
        true
    }
}
