//! Where a character begins in the bytes of a text.

ghost use Rattle.std.specs.Prelude.{◌≤◌, length, chars};
ghost use Rattle.atspi_base.specs.Places.{CutAt};

/// At which byte the character at a place begins: both are counted from 0, and the end is a place too. The text is
/// walked up to there.
pub fn byte_of(text: &str, at: usize) -> usize
    requires { at ≤ length (chars text.now) }
    ensures { CutAt text.now at result }
{
    let mut rest = text.chars();
    for _i in 0..at {
        let _ = rest.next();
    }
    text.len() - rest.as_str().len()
}
