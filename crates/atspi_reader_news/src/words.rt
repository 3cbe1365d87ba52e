//! Words of ASCII, compared with texts that lie in a body.

ghost use Rattle.std.specs.Prelude.{◌≡◌, bytes_eq, chars, true};
ghost use Rattle.std.specs.List.{list_all};
ghost use Rattle.std.specs.Char.{is_ascii};
ghost use Rattle.atspi_protocol.specs.news.Events.{is_front};

/// Whether a text is the word.
pub fn is_word(text: &str, word: &str) -> bool
    requires { list_all is_ascii word.now ≡ true }
    ensures { result ≡ bytes_eq word.now (chars text.now) }
{
    word == text
}

/// Whether a text begins with the word.
pub(crate) fn begins_with(text: &str, word: &str) -> bool
    requires { list_all is_ascii word.now ≡ true }
    ensures { result ≡ is_front word.now (chars text.now) }
{
    text.as_bytes().starts_with(word.as_bytes())
}

/// Whether two texts have the same characters.
pub(crate) fn is_same(text: &str, other: &str) -> bool
    ensures { result ≡ bytes_eq (chars text.now) (chars other.now) }
{
    text == other
}

/// Whether a name is this one.
pub(crate) fn is_named(name: &[u8], word: &str) -> bool
    ensures { result ≡ bytes_eq word.now name.now }
{
    word.as_bytes() == name
}
