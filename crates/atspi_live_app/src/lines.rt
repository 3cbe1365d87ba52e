//! The lines of an input.

ghost use Rattle.std.specs.Prelude.{◌≡◌, ◌<◌, ◌≤◌, ◌+◌, ◌∷◌, length, take, drop};
ghost use Rattle.atspi_live_app.specs.Lines.{lines_of};

/// Where the first line ends: at its line feed, or where the text does.
pub(crate) fn line_end(text: &[u8]) -> usize
    requires { 0 < length text.now }
    ensures first { lines_of text.now ≡ take result text.now ∷ lines_of (drop (result + 1) text.now) }
    ensures within { result ≤ length text.now }
{
    for (i, b) in text.iter().enumerate() {
        if *b == b'\n' {
            return i;
        }
    }
    text.len()
}
