//! The properties that accessible objects have.

/// A property of an interface of AT-SPI2. No two of these interfaces have a property of one name.
#[derive(Clone, Copy, Debug, PartialEq, Eq)]
pub enum ObjectProperty {
    // Accessible
    Name,
    Description,
    Parent,
    ChildCount,
    Locale,
    AccessibleId,
    // Application
    ToolkitName,
    Version,
    AtspiVersion,
    Id,
    // Text
    CharacterCount,
    CaretOffset,
    // Selection
    NSelectedChildren,
    // Table
    NRows,
    NColumns,
    // Action
    NActions,
}
