//! Which events a pattern covers.

ghost use Rattle.std.specs.Prelude.{◌≡◌, [], ◌∷◌, MatchOption, bytes_eq};
ghost use Rattle.std.specs.List.{before_first, after_first};
ghost use Rattle.atspi_protocol.specs.ends.Covering as covering;
ghost use Rattle.atspi_protocol.specs.ends.Covering.{compared, is_colon, lowered};

/// Whether a pattern, of the form `class:name:minor`, covers an event of the class `object` with this name and minor
/// word. Dashes and whether letters are small do not count; a part that is missing or empty covers all, and parts
/// behind the third say nothing. It takes no memory.
pub fn covers(pattern: &str, name: &str, minor: &str) -> bool
    ensures { result ≡ covering.covers pattern.now name.now minor.now }
{
    let (class, rest) = cut(pattern);
    let (second, rest) = cut(rest);
    let (third, _) = cut(rest);
    part_covers(class.as_bytes(), b"object")
        && part_covers(second.as_bytes(), name.as_bytes())
        && part_covers(third.as_bytes(), minor.as_bytes())
}

/// What stands before the first colon, and what behind it.
fn cut(text: &str) -> (&str, &str)
    ensures front { result.0.now ≡ before_first is_colon text.now }
    ensures rest { result.1.now ≡ after_first is_colon text.now }
{
    match text.split_once(':') {
        Some((front, rest)) => (front, rest),
        None => (text, ""),
    }
}

/// Whether a part of a pattern covers a word.
fn part_covers(part: &[u8], word: &[u8]) -> bool
    ensures { result ≡ covering.part_covers part.now word.now }
{
    part.is_empty() || is_same_word(part, word)
}

/// Whether the two are the same without dashes and in small letters.
fn is_same_word(part: &[u8], word: &[u8]) -> bool
    ensures { result ≡ bytes_eq (compared part.now) (compared word.now) }
{
    let mut rest = word;
    for byte in part {
        if *byte != b'-' {
            match first_letter(rest) {
                Some((letter, behind)) if letter == small(*byte) => rest = behind,
                _ => return false,
            }
        }
    }
    first_letter(rest).is_none()
}

/// The first byte that is no dash, as a small letter if it is one, and what stands behind it.
fn first_letter(word: &[u8]) -> Option<(u8, &[u8])>
    ensures { MatchOption result (compared word.now ≡ []) (λ x. compared word.now ≡ x.0 ∷ compared x.1.now) }
{
    for (i, byte) in word.iter().enumerate() {
        if *byte != b'-' {
            return Some((small(*byte), &word[i + 1..]));
        }
    }
    None
}

/// A letter as a small one.
fn small(byte: u8) -> u8
    ensures { result ≡ lowered byte }
{
    byte.to_ascii_lowercase()
}
