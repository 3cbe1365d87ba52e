//! The messages of a reader, by their fields.

ghost use Rattle.std.specs.Prelude.{◌≡◌, ◌∷◌, [], None, Some, codes};
ghost use Rattle.atspi_types.specs.Kinds.{i32};
ghost use Rattle.atspi_types.specs.Data.{text_data, number_data};
ghost use Rattle.atspi_types.specs.declared.fault.Order.TheVariants.{Little};
ghost use Rattle.atspi_script_lines.specs.declared.deed.Deed.TheVariants.{SetCaret, InsertText, DeleteText, SetText};
ghost use Rattle.atspi_script_lines.specs.declared.deed.Deed.TheVariants.{SelectChild, DeselectChild, SelectAll};
ghost use Rattle.atspi_script_lines.specs.declared.deed.Deed.TheVariants.{ClearSelection, DoAction};
ghost use Rattle.atspi_protocol.specs.declared.news.part.PartName.TheVariants.{Text, Caret, Columns};
ghost use Rattle.atspi_protocol.specs.ends.Messages.{call_to};
ghost use Rattle.atspi_protocol.specs.declared.following.question.Question.TheVariants.{Hello, AddMatch, RegisterEvent};
ghost use Rattle.atspi_protocol.specs.declared.following.question.Question.TheVariants.{GetChildren, GetItems, GetPart};
ghost use Rattle.atspi_protocol.specs.following.Calls.{asking, own_call, deed_call, user_call};

/// Hello, field by field.
pub fn hello()
    ensures whole { asking 1 Hello ≡ record {
      order = Little;
      kind = 1;
      flags = 0;
      serial = 1;
      path = Some (codes "/org/freedesktop/DBus");
      interface = Some (codes "org.freedesktop.DBus");
      member = Some (codes "Hello");
      error = None;
      reply = None;
      destination = Some (codes "org.freedesktop.DBus");
      sender = None;
      body = [];
    } }
{}

/// The other calls of the reader's own.
pub fn own_calls()
    ensures rule { own_call (AddMatch (codes "type='error'"))
        ≡ call_to (codes "org.freedesktop.DBus") (codes "/org/freedesktop/DBus") (codes "org.freedesktop.DBus")
        (codes "AddMatch") (text_data (codes "type='error'") ∷ []) }
    ensures pattern { own_call (RegisterEvent (codes "object:x"))
        ≡ call_to (codes "org.a11y.atspi.Registry") (codes "/org/a11y/atspi/registry") (codes "org.a11y.atspi.Registry")
        (codes "RegisterEvent") (text_data (codes "object:x") ∷ []) }
    ensures children { own_call GetChildren
        ≡ call_to (codes "org.a11y.atspi.Registry") (codes "/org/a11y/atspi/accessible/root")
        (codes "org.a11y.atspi.Accessible") (codes "GetChildren") [] }
    ensures items { own_call (GetItems (codes ":1.7"))
        ≡ call_to (codes ":1.7") (codes "/org/a11y/atspi/cache") (codes "org.a11y.atspi.Cache") (codes "GetItems") [] }
    ensures text { own_call (GetPart (codes ":1.7") (codes "/a") Text)
        ≡ call_to (codes ":1.7") (codes "/a") (codes "org.a11y.atspi.Text") (codes "GetText")
        (number_data i32 0 ∷ (number_data i32 4294967295 ∷ [])) }
    ensures caret { own_call (GetPart (codes ":1.7") (codes "/a") Caret)
        ≡ call_to (codes ":1.7") (codes "/a") (codes "org.freedesktop.DBus.Properties") (codes "Get")
        (text_data (codes "org.a11y.atspi.Text") ∷ (text_data (codes "CaretOffset") ∷ [])) }
    ensures columns { own_call (GetPart (codes ":1.7") (codes "/a") Columns)
        ≡ call_to (codes ":1.7") (codes "/a") (codes "org.freedesktop.DBus.Properties") (codes "Get")
        (text_data (codes "org.a11y.atspi.Table") ∷ (text_data (codes "NColumns") ∷ [])) }
{}

/// What a user asks of a node.
#[tactic(auto, unfolding(atspi_tree_model::specs::Path::path_of))]
pub fn deeds()
    ensures caret { deed_call (codes ":1.7") (codes "/a") (SetCaret 3)
        ≡ call_to (codes ":1.7") (codes "/a") (codes "org.a11y.atspi.Text") (codes "SetCaretOffset")
        (number_data i32 3 ∷ []) }
    ensures insert { deed_call (codes ":1.7") (codes "/a") (InsertText 3 (104 ∷ (233 ∷ [])))
        ≡ call_to (codes ":1.7") (codes "/a") (codes "org.a11y.atspi.EditableText") (codes "InsertText")
        (number_data i32 3 ∷ (text_data (104 ∷ (233 ∷ [])) ∷ (number_data i32 2 ∷ []))) }
    ensures delete { deed_call (codes ":1.7") (codes "/a") (DeleteText 1 3)
        ≡ call_to (codes ":1.7") (codes "/a") (codes "org.a11y.atspi.EditableText") (codes "DeleteText")
        (number_data i32 1 ∷ (number_data i32 3 ∷ [])) }
    ensures contents { deed_call (codes ":1.7") (codes "/a") (SetText (codes "x"))
        ≡ call_to (codes ":1.7") (codes "/a") (codes "org.a11y.atspi.EditableText") (codes "SetTextContents")
        (text_data (codes "x") ∷ []) }
    ensures select { deed_call (codes ":1.7") (codes "/a") (SelectChild 2)
        ≡ call_to (codes ":1.7") (codes "/a") (codes "org.a11y.atspi.Selection") (codes "SelectChild")
        (number_data i32 2 ∷ []) }
    ensures deselect { deed_call (codes ":1.7") (codes "/a") (DeselectChild 2)
        ≡ call_to (codes ":1.7") (codes "/a") (codes "org.a11y.atspi.Selection") (codes "DeselectChild")
        (number_data i32 2 ∷ []) }
    ensures all { deed_call (codes ":1.7") (codes "/a") SelectAll
        ≡ call_to (codes ":1.7") (codes "/a") (codes "org.a11y.atspi.Selection") (codes "SelectAll") [] }
    ensures clear { deed_call (codes ":1.7") (codes "/a") ClearSelection
        ≡ call_to (codes ":1.7") (codes "/a") (codes "org.a11y.atspi.Selection") (codes "ClearSelection") [] }
    ensures act { deed_call (codes ":1.7") (codes "/a") (DoAction 2)
        ≡ call_to (codes ":1.7") (codes "/a") (codes "org.a11y.atspi.Action") (codes "DoAction")
        (number_data i32 2 ∷ []) }
    ensures root { user_call 7 (codes ":1.7") 0 (DoAction 2)
        ≡ record (call_to (codes ":1.7") (codes "/org/a11y/atspi/accessible/root") (codes "org.a11y.atspi.Action")
        (codes "DoAction") (number_data i32 2 ∷ [])) { serial = 7 } }
{}
