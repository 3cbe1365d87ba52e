//! The parts of a row that a reader asks for one by one.

/// A part of a row that news do not tell before a reader asked for it.
#[derive(Clone, Copy, Debug, PartialEq, Eq)]
pub enum PartName {
    /// The text, by `GetText(0, -1)` of interface Text.
    Text,
    /// The caret, by `Get` of property CaretOffset of interface Text.
    Caret,
    /// The count of columns, by `Get` of property NColumns of interface Table.
    Columns,
}
