//! The calls that accessible objects answer.

/// A member of an interface of AT-SPI2, or of the two interfaces of D-Bus that every object has. No two of these
/// interfaces have a member of one name.
#[derive(Clone, Copy, Debug, PartialEq, Eq)]
pub enum ObjectMember {
    // Accessible
    GetChildAtIndex,
    GetChildren,
    GetIndexInParent,
    GetRelationSet,
    GetRole,
    GetRoleName,
    GetLocalizedRoleName,
    GetState,
    GetAttributes,
    GetApplication,
    GetInterfaces,
    // Application
    GetLocale,
    // Cache
    GetItems,
    // Text
    GetText,
    SetCaretOffset,
    GetCharacterAtOffset,
    GetStringAtOffset,
    GetNSelections,
    GetSelection,
    AddSelection,
    RemoveSelection,
    SetSelection,
    // EditableText
    SetTextContents,
    InsertText,
    DeleteText,
    // Selection
    GetSelectedChild,
    SelectChild,
    DeselectChild,
    DeselectSelectedChild,
    IsChildSelected,
    SelectAll,
    ClearSelection,
    // Table
    GetAccessibleAt,
    GetIndexAt,
    GetRowAtIndex,
    GetColumnAtIndex,
    GetSelectedRows,
    IsRowSelected,
    IsSelected,
    // Action
    GetName,
    GetDescription,
    GetKeyBinding,
    GetActions,
    DoAction,
    // Registry
    RegisterEvent,
    DeregisterEvent,
    GetRegisteredEvents,
    // Socket
    Embed,
    Unembed,
    // Properties
    Get,
    GetAll,
    Set,
    // Peer
    Ping,
}
