//! Splitting a text into lines.

ghost use Rattle.std.specs.Prelude.{◌≡◌, [], MatchOption};
ghost use Rattle.atspi_run_input.specs.Lines.{FirstLine, lines_read};

/// The first line of a text, and the text behind it. The last line may lack its line feed where the text has ended;
/// else it is no line yet. None where there is no line.
pub fn next_line(text: &[u8], ended: bool) -> Option<(&[u8], &[u8])>
    ensures { MatchOption result (lines_read ended text.now ≡ []) (λ r. FirstLine ended text.now r.0.now r.1.now) }
{
    for (i, b) in text.iter().enumerate() {
        if *b == b'\n' {
            return Some((&text[..i], &text[i + 1..]));
        }
    }
    if ended && !text.is_empty() {
        return Some((text, &text[text.len()..]));
    }
    None
}
