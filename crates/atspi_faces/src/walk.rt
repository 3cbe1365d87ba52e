//! Walks over characters, to find at which byte one begins.

ghost use Rattle.std.specs.Prelude.{◌≡◌, ◌≤◌, length, chars};
ghost use Rattle.atspi_base.specs.Places.{CutAt};

/// At which byte the character at a place begins. The end, and a text of one byte a character, need no walk.
pub fn byte_of(text: &str, count: u32, at: u32) -> usize
    requires counted { count ≡ length (chars text.now) }
    requires within { at ≤ count }
    ensures { CutAt text.now at result }
{
    if at == count {
        return text.len();
    }
    if text.len() == count as usize {
        return at as usize;
    }
    atspi_base::byte_of(text, at as usize)
}
