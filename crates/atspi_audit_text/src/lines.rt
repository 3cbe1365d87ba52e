//! A text cut at its first line feed.

ghost use Rattle.std.specs.Prelude.{◌≡◌, ◌∷◌, ◌++◌, ℕ, List, MatchOption};
ghost use Rattle.atspi_audit_text.specs.inner.Lines.{HasNoFeed};

/// The line in front, without its line feed, and what follows it.
pub(crate) fn next_line(text: &[u8]) -> Option<(&[u8], &[u8])>
    ensures { MatchOption result ((line rest : List ℕ) → text.now ≡ line ++ 10 ∷ rest → ⊥)
        (λ r. HasNoFeed r.0.now × (text.now ≡ r.0.now ++ 10 ∷ r.1.now)) }
{
    for (i, b) in text.iter().enumerate() {
        if *b == b'\n' {
            return Some((&text[..i], &text[i + 1..]));
        }
    }
    None
}
