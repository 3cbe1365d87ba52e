//! The words of a line as bytes: each stands behind a space and has none in it.

ghost use Rattle.std.specs.Prelude.{◌≡◌, ◌↔◌, ◌∷◌, ◌++◌, List, ℕ, IsTrue, MatchOption};
ghost use Rattle.atspi_script_lines.specs.inner.Reading.{HasNoSpace};
ghost use Rattle.atspi_script_lines.specs.Words.{IsBehind, Leads, literal};

/// The bytes before the first space, all where there is none, and the rest from that space on.
pub(crate) fn split_word(bytes: &[u8]) -> (&[u8], &[u8])
    ensures all { bytes.now ≡ result.0.now ++ result.1.now }
    ensures free { HasNoSpace result.0.now }
    ensures behind { IsBehind result.1.now }
{
    for (i, b) in bytes.iter().enumerate() {
        if *b == b' ' {
            return (&bytes[..i], &bytes[i..]);
        }
    }
    (bytes, &bytes[bytes.len()..])
}

/// What stands behind the space that the bytes begin with.
fn behind_space(bytes: &[u8]) -> Option<&[u8]>
    ensures { MatchOption result ((rest : List ℕ) → bytes.now ≡ 32 ∷ rest → ⊥) (λ r. bytes.now ≡ 32 ∷ r.now) }
{
    match bytes {
        [b' ', rest @ ..] => Some(rest),
        _ => None,
    }
}

/// The word that stands in front, whatever it is, and what follows it.
pub(crate) fn next_word(bytes: &[u8]) -> Option<(&[u8], &[u8])>
    ensures { MatchOption result ((rest : List ℕ) → bytes.now ≡ 32 ∷ rest → ⊥)
        (λ r. HasNoSpace r.0.now × Leads (literal r.0.now) r.1.now bytes.now) }
{
    let Some(behind) = behind_space(bytes) else {
        return None;
    };
    Some(split_word(behind))
}

/// Whether a word is this one.
pub(crate) fn is_word(word: &[u8], this: &[u8]) -> bool
    ensures { IsTrue result ↔ (word.now ≡ this.now) }
{
    word == this
}
