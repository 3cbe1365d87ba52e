//! Which parts of a node were told.

ghost use Rattle.std.specs.Prelude.{◌≡◌};
ghost use Rattle.atspi_audit_held.specs.Held.{told_of};
ghost use Rattle.atspi_audit_held.specs.inner.Lacking.{lacks, told_with};

use atspi_protocol::news::PartName;
use atspi_tree_model::Kinds;

/// Which parts of a node a reader was told.
#[derive(Clone, Copy, Debug, PartialEq, Eq)]
pub struct Known {
    pub text: bool,
    pub caret: bool,
    pub columns: bool,
}

/// None of them.
pub(crate) const NOTHING: Known = Known {
    text: false,
    caret: false,
    columns: false,
};

/// These, and one more.
pub(crate) fn known_with(known: Known, part: PartName) -> Known
    ensures { told_of result ≡ told_with (told_of known) part }
{
    match part {
        PartName::Text => Known {
            text: true,
            ..known
        },
        PartName::Caret => Known {
            caret: true,
            ..known
        },
        PartName::Columns => Known {
            columns: true,
            ..known
        },
    }
}

/// Whether a node with these interfaces has a part that was not told.
pub(crate) fn is_lacking(known: Known, kinds: Kinds) -> bool
    ensures { result ≡ lacks (told_of known) kinds }
{
    if kinds.text && !(known.text && known.caret) {
        return true;
    }
    kinds.table && !known.columns
}
