//! Which part of which row is wanted first.

ghost use Rattle.std.specs.Prelude.{◌≡◌, ◌++◌, map};
ghost use Rattle.std.specs.Option.{option_map};
ghost use Rattle.atspi_cache_arena.specs.Sights.{Sight};
ghost use Rattle.atspi_protocol.specs.following.Wishes.{is_refused, text_is_unknown, number_is_unknown};
ghost use Rattle.atspi_reader_known.specs.Wanted as wanted;
ghost use Rattle.atspi_reader_known.specs.Wanted.{lent};

use crate::refused::Refused;
use atspi_base::valid_names::Path;
use atspi_cache::Rows;
use atspi_protocol::news::PartName;
use atspi_tree_model::{NumPart, Part, Row};

/// Whether a text is there and not known.
pub(crate) fn is_unknown_text(part: &Part) -> bool
    ensures { result ≡ text_is_unknown part.now }
{
    match part {
        Part::Unknown => true,
        _ => false,
    }
}

/// Whether a number is there and not known.
pub(crate) fn is_unknown_number(part: NumPart) -> bool
    ensures { result ≡ number_is_unknown part }
{
    match part {
        NumPart::Unknown => true,
        _ => false,
    }
}

/// Whether a part is among either.
pub(crate) fn is_left_out(refused: &Refused, more: &Refused, path: &Path, part: PartName) -> bool
    ensures { result ≡ is_refused (refused.now ++ more.now) path.now part }
{
    refused.has(path, part) || more.has(path, part)
}

/// The first unknown part of a row that was not refused.
fn first_part(refused: &Refused, more: &Refused, row: &Row) -> Option<PartName>
    ensures { result ≡ wanted.first_part (refused.now ++ more.now) row.now }
{
    if is_unknown_text(&row.text) && !is_left_out(refused, more, &row.path, PartName::Text) {
        return Some(PartName::Text);
    }
    if is_unknown_number(row.caret) && !is_left_out(refused, more, &row.path, PartName::Caret) {
        return Some(PartName::Caret);
    }
    if is_unknown_number(row.columns) && !is_left_out(refused, more, &row.path, PartName::Columns) {
        return Some(PartName::Columns);
    }
    None
}

/// The first unknown part of some rows that was not refused, with its row's path. It takes no memory, and walks over
/// the rows up to that one.
pub(crate) fn first_wanted<'a>(
    rows: Rows<'a>,
    refused: &Refused,
    more: &Refused,
) -> Option<(&'a Path, PartName)>
    ensures { option_map lent result
        ≡ wanted.first_wanted (refused.now ++ more.now) (map (λ (s : Sight). s.row) rows.entry) }
{
    let mut rest = rows;
    while let Some(seen) = rest.next() {
        if let Some(part) = first_part(refused, more, seen.row) {
            return Some((&seen.row.path, part));
        }
    }
    None
}
