//! Types of one byte, which most variants have: they need no list of types.

ghost use Rattle.std.specs.Prelude.{◌≡◌, ◌+◌, [], ◌∷◌, IfSome, Ok};
ghost use Rattle.atspi_types.specs.KindView.{kind_of};
ghost use Rattle.atspi_types.specs.SignatureReading.{signature_in};
ghost use Rattle.atspi_marshal.specs.Faults.{short_in};
ghost use Rattle.atspi_marshal.specs.Input.{byte_in, ReachTo};
ghost use Rattle.atspi_marshal.specs.Reading.{input_of};

use crate::input::{Marshalled, byte_at};
use atspi_types::Ty;

/// The type of one byte that a code stands for.
fn type_of_code(code: u8) -> Option<Ty>
    ensures { IfSome result (λ ty. signature_in (code ∷ []) ≡ Ok (kind_of ty ∷ [])) }
{
    match code {
        b'y' => Some(Ty::Byte),
        b'b' => Some(Ty::Bool),
        b'n' => Some(Ty::I16),
        b'q' => Some(Ty::U16),
        b'i' => Some(Ty::I32),
        b'u' => Some(Ty::U32),
        b'x' => Some(Ty::I64),
        b't' => Some(Ty::U64),
        b'd' => Some(Ty::Double),
        b's' => Some(Ty::Text),
        b'o' => Some(Ty::Path),
        b'g' => Some(Ty::Sig),
        b'v' => Some(Ty::Variant),
        _ => None,
    }
}

/// The type, where the signature whose length stands at a place has one byte.
pub fn plain_type(input: &Marshalled, place: usize) -> Option<Ty>
    requires { ReachTo input.now (place + 2 + byte_in (input_of input.now) place) }
    ensures { IfSome result (λ ty. signature_in (short_in (input_of input.now) place) ≡ Ok (kind_of ty ∷ [])) }
{
    if byte_at(input, place) != 1 {
        return None;
    }
    type_of_code(byte_at(input, place + 1))
}
