//! Deeds: what a reader asks of a node of an application.

use atspi_base::Text;

/// What a reader asks of a node, by a call of one of its interfaces. Places and indexes count from 0 and are at most
/// 2,147,483,647, as in a call on the wire they are signed numbers of 32 bits.
#[derive(Drop)]
pub enum Deed {
    /// The caret goes before the character at this place (Text.SetCaretOffset).
    SetCaret { at: u32 },
    /// A text is put before the character at this place (EditableText.InsertText).
    InsertText { at: u32, text: Text },
    /// The characters from the first place up to the second go (EditableText.DeleteText).
    DeleteText { from: u32, to: u32 },
    /// The whole text is replaced (EditableText.SetTextContents).
    SetText { text: Text },
    /// The child at this index is selected (Selection.SelectChild).
    SelectChild { index: u32 },
    /// The child at this index is selected no more (Selection.DeselectChild).
    DeselectChild { index: u32 },
    /// All children are selected (Selection.SelectAll).
    SelectAll,
    /// No child is selected any more (Selection.ClearSelection).
    ClearSelection,
    /// The action at this index is done (Action.DoAction).
    DoAction { index: u32 },
}
