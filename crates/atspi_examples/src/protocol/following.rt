//! A reader's calls, in full, and what it knows of applications.

ghost use Rattle.std.specs.Prelude.{◌≡◌, ◌∷◌, [], None, Some, codes};
ghost use Rattle.atspi_script_lines.specs.declared.deed.Deed.TheVariants.{InsertText, SetCaret};
ghost use Rattle.atspi_types.specs.Kinds.{i32};
ghost use Rattle.atspi_types.specs.Data.{number_data, text_data};
ghost use Rattle.atspi_protocol.specs.declared.following.question.Question.TheVariants.{AddMatch, GetChildren, GetPart};
ghost use Rattle.atspi_protocol.specs.declared.following.question.Question.TheVariants.{Hello, RegisterEvent};
ghost use Rattle.atspi_protocol.specs.declared.news.part.PartName.TheVariants.{Caret, Columns, Text};
ghost use Rattle.atspi_protocol.specs.ends.Messages.{call_to};
ghost use Rattle.atspi_protocol.specs.ends.Places.{references};
ghost use Rattle.atspi_protocol.specs.following.Calls.{deed_call, own_call, user_call};
ghost use Rattle.atspi_protocol.specs.following.Cases.{failed, known, returned, waiting};
ghost use Rattle.atspi_protocol.specs.following.ReaderState.{begins, sends, start_calls, tells_end};
ghost use Rattle.atspi_protocol.specs.following.Replied.{with_children};
ghost use Rattle.atspi_protocol.specs.following.Takes.{last_of, reader_calls};

/// The ten calls of a start, in their order.
pub fn starts()
    ensures { start_calls
        ≡ Hello
        ∷ AddMatch (codes "type='signal',interface='org.freedesktop.DBus',member='NameOwnerChanged'")
        ∷ AddMatch (codes "type='signal',interface='org.a11y.atspi.Cache'")
        ∷ AddMatch (codes "type='signal',interface='org.a11y.atspi.Event.Object'")
        ∷ RegisterEvent (codes "object:children-changed")
        ∷ RegisterEvent (codes "object:property-change")
        ∷ RegisterEvent (codes "object:state-changed")
        ∷ RegisterEvent (codes "object:text-changed")
        ∷ RegisterEvent (codes "object:text-caret-moved")
        ∷ GetChildren ∷ [] }
{}

/// A part is asked for at its row's path: the text from 0 to -1, the caret and the columns as properties.
pub fn part_calls()
    ensures text { own_call (GetPart (codes ":1.7") (codes "/a") Text)
        ≡ call_to (codes ":1.7") (codes "/a") (codes "org.a11y.atspi.Text") (codes "GetText")
        (number_data i32 0 ∷ number_data i32 4294967295 ∷ []) }
    ensures caret { own_call (GetPart (codes ":1.7") (codes "/a") Caret)
        ≡ call_to (codes ":1.7") (codes "/a") (codes "org.freedesktop.DBus.Properties") (codes "Get")
        (text_data (codes "org.a11y.atspi.Text") ∷ text_data (codes "CaretOffset") ∷ []) }
    ensures columns { own_call (GetPart (codes ":1.7") (codes "/a") Columns)
        ≡ call_to (codes ":1.7") (codes "/a") (codes "org.freedesktop.DBus.Properties") (codes "Get")
        (text_data (codes "org.a11y.atspi.Table") ∷ text_data (codes "NColumns") ∷ []) }
{}

/// A user's call goes behind what the reader did before, with its next serial; a text goes with its own length.
pub fn user_calls()
    ensures insert { deed_call (codes ":1.7") (codes "/a") (InsertText 3 (codes "hello"))
        ≡ call_to (codes ":1.7") (codes "/a") (codes "org.a11y.atspi.EditableText") (codes "InsertText")
        (number_data i32 3 ∷ text_data (codes "hello") ∷ number_data i32 5 ∷ []) }
    ensures behind { (reader_calls (record begins { next = 6; out = tells_end (codes ":1.9") ∷ [] }) (codes ":1.7") 1
        (SetCaret 2)).out ≡ tells_end (codes ":1.9") ∷ sends (user_call 6 (codes ":1.7") 1 (SetCaret 2)) ∷ [] }
    ensures next { (reader_calls (record begins { next = 6 }) (codes ":1.7") 1 (SetCaret 2)).next ≡ 7 }
{}

/// Only a return with a list of references tells the registry's children; an error with such a body does not. A child
/// with a well-known name makes nobody known.
#[tactic(auto, unfolding(atspi_base::specs::valid_names::Names::is_bus_name, atspi_base::specs::valid_names::Elements::are_two_or_more, atspi_base::specs::valid_names::Elements::are_elements, atspi_base::specs::valid_names::Elements::parts_of))]
pub fn children()
    ensures told { (with_children begins
        (returned 20 (codes ":1.0") (references ((codes ":1.7", codes "/r") ∷ []) ∷ []))).apps
        ≡ known (codes ":1.7") ∷ [] }
    ensures well_known { (with_children begins
        (returned 20 (codes ":1.0") (references ((codes "a.b", codes "/r") ∷ []) ∷ []))).apps ≡ [] }
    ensures registry { (with_children begins (returned 20 (codes ":1.0") (references [] ∷ []))).registry
        ≡ Some (codes ":1.0") }
    ensures error { (with_children begins
        (record (failed 20 (codes ":1.0")) { body = references ((codes ":1.7", codes "/r") ∷ []) ∷ [] })).apps
        ≡ [] }
    ensures error_ends { (with_children begins
        (record (failed 20 (codes ":1.0")) { body = references [] ∷ [] })).to_come ≡ [] }
    ensures no_list { (with_children begins (returned 20 (codes ":1.0") (text_data [] ∷ []))).to_come ≡ [] }
    ensures no_list_tells { (with_children begins (returned 20 (codes ":1.0") (text_data [] ∷ []))).registry ≡ None }
{}

/// Of an application that is not known, or not held, no serial is told.
pub fn ends()
    ensures unknown { last_of None ≡ None }
    ensures not_held { last_of (Some (known (codes ":1.7"))) ≡ None }
{}
