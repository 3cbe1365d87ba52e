//! Looking a name up in a table of names.

ghost use Rattle.std.specs.Prelude.{◌≡◌, ◌<◌, bytes_eq, length, map, position, slice_get, IfSome, Some};
ghost use Rattle.std.specs.Option.{option_copied};

/// The name at this place, where there is one.
pub(crate) fn name_at(names: &[&'static str], place: usize) -> Option<&'static str>
    ensures { option_copied result ≡ slice_get (map (λ n. n.now) names.now) place }
{
    names.get(place).copied()
}

/// The first place with this name, where there is one.
pub(crate) fn place_of(names: &[&'static str], name: &[u8]) -> Option<usize>
    ensures first { result ≡ position (λ n. bytes_eq n name.now) (map (λ n. n.now) names.now) }
    ensures below { IfSome result (λ i. i < length names.now) }
    ensures found { IfSome result (λ i. slice_get (map (λ n. n.now) names.now) i ≡ Some name.now) }
{
    names.iter().position(|n| n.as_bytes() == name)
}
