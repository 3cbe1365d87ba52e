//! Which pieces of a text a call asks for.

ghost use Rattle.std.specs.Prelude.{◌≡◌};
ghost use Rattle.atspi_protocol.specs.members.Granularity.{grain_of};

use atspi_units::Grain;

/// The pieces that a number of AtspiTextGranularity asks for: 0 characters, 1 words, 3 and 4 lines. None for sentences
/// and for other numbers.
pub fn grain_of(number: u32) -> Option<Grain>
    ensures { result ≡ grain_of number }
{
    match number {
        0 => Some(Grain::Char),
        1 => Some(Grain::Word),
        3 | 4 => Some(Grain::Line),
        _ => None,
    }
}
