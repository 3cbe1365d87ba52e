//! The arguments of the members of Component.

ghost use Rattle.std.specs.Prelude.{◌≡◌, ◌↔◌, ◌∷◌, [], ℤ, IsTrue, MatchOption};
ghost use Rattle.atspi_types.specs.DataView.{all_data};
ghost use Rattle.atspi_hit_answers.specs.Component.{point, screen};
ghost use Rattle.atspi_hit_answers.specs.inner.Reading.{is_screen_ref, signed_ref};

use atspi_types::{ValueRef, Values};

/// A signed number.
fn signed(value: ValueRef) -> Option<i32>
    ensures { result ≡ signed_ref value.entry }
{
    match value {
        ValueRef::I32(number) => Some(number),
        _ => None,
    }
}

/// Whether a value is the coordinate type of the screen.
fn is_of_screen(value: ValueRef) -> bool
    ensures { result ≡ is_screen_ref value.entry }
{
    match value {
        ValueRef::U32(number) => number == 0,
        _ => false,
    }
}

/// The point of the screen that the arguments are.
pub(crate) fn point_of(body: &Values) -> Option<(i32, i32)>
    ensures { MatchOption result ((x y : ℤ) → all_data body.now ≡ point x y → ⊥)
        (λ p. all_data body.now ≡ point p.0 p.1) }
{
    if body.len() != 3 {
        return None;
    }
    let Some(x) = signed(body.at(0)) else {
        return None;
    };
    let Some(y) = signed(body.at(1)) else {
        return None;
    };
    if !is_of_screen(body.at(2)) {
        return None;
    }
    Some((x, y))
}

/// Whether the arguments are the coordinate type of the screen alone.
pub(crate) fn is_screen(body: &Values) -> bool
    ensures { IsTrue result ↔ (all_data body.now ≡ screen ∷ []) }
{
    if body.len() != 1 {
        return false;
    }
    is_of_screen(body.at(0))
}
