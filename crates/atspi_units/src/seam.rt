//! Between which characters a unit ends whatever stands around them.

ghost use Rattle.std.specs.Prelude.{◌≡◌};
ghost use Rattle.unicode_segmentation.specs.Word.{is_ignored};
ghost use Rattle.atspi_units.specs.inner.Seams.{word_ends, ends_behind, ends_surely};

use crate::Grain;
use ucd_breaks::WordBreak;

/// Whether the rules pass over the class, so that it goes on with what stands before it.
fn is_ignored(class: WordBreak) -> bool
    ensures { result ≡ is_ignored class }
{
    matches!(
        class,
        WordBreak::Extend | WordBreak::Format | WordBreak::Zwj
    )
}

/// Whether a word ends behind a character of the one class and before one of the other, whatever stands around them:
/// the first is named by none of the rules but those on pairs, and those do not join it to the second.
fn word_ends(left: WordBreak, right: WordBreak) -> bool
    ensures { result ≡ word_ends left right }
{
    match left {
        WordBreak::Lf | WordBreak::Newline => true,
        WordBreak::Cr => !matches!(right, WordBreak::Lf),
        WordBreak::Other => !is_ignored(right),
        WordBreak::WSegSpace => !matches!(right, WordBreak::WSegSpace) && !is_ignored(right),
        _ => false,
    }
}

/// Whether a unit ends between the two characters, whatever stands around them.
fn ends_surely(unit: Grain, left: char, right: char) -> bool
    ensures { result ≡ ends_surely unit left right }
{
    match unit {
        Grain::Char => true,
        Grain::Word => word_ends(WordBreak::for_char(left), WordBreak::for_char(right)),
        Grain::Line => left == '\n',
    }
}

/// The same behind the last character of what may be empty.
pub(crate) fn ends_behind(unit: Grain, left: Option<char>, right: char) -> bool
    ensures { result ≡ ends_behind unit left right }
{
    match left {
        None => false,
        Some(left) => ends_surely(unit, left, right),
    }
}
