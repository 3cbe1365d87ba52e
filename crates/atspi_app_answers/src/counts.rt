//! Counts of what the contents of a node have.

ghost use Rattle.std.specs.Prelude.{◌≡◌};
ghost use Rattle.atspi_types.specs.DataView.{data_of};
ghost use Rattle.atspi_app_answers.specs.Laws.{FacesTellCounts};
ghost use Rattle.atspi_protocol.specs.objects.Values as values;

use atspi_types::Value;

/// How much the contents of a node have, as its faces tell it: 0 where the node has no such contents.
#[derive(Clone, Copy, Debug, PartialEq, Eq)]
pub struct Counts {
    /// The characters of its text.
    pub characters: u32,
    /// The place of the caret in it, which counts characters from 0.
    pub caret: u32,
    /// The columns of its table.
    pub columns: u32,
    /// Its actions.
    pub actions: u32,
}

/// A count as a value.
pub(crate) fn counted(n: u32) -> Value
    ensures { data_of result ≡ values.count_data n }
{
    Value::I32(n.cast_signed())
}

/// Where each face has contents of its kind, what the faces count of a node is what its row in the whole tree counts. A
/// law: this does nothing.
pub fn faces_tell_counts()
    ensures { FacesTellCounts }
{}
