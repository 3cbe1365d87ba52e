//! The events of the node `/n` of the application `:1.7`.

ghost use Rattle.std.specs.Prelude.{◌≡◌, ◌∷◌, ◌-◌, ◌^◌, [], true, false, None, Some, pos, negsuc, codes};
ghost use Rattle.atspi_types.specs.Kinds.{i32, u32, number};
ghost use Rattle.atspi_types.specs.Data.{text_data, number_data, variant_data};
ghost use Rattle.atspi_tree_model.specs.declared.news.News.TheVariants.{ChildAdded, ChildRemoved, Name, Description};
ghost use Rattle.atspi_tree_model.specs.declared.news.News.TheVariants.{Role, State, Inserted, Deleted, Caret, Nothing};
ghost use Rattle.atspi_protocol.specs.news.NewsOf.{news_of, event_interface};
ghost use Rattle.atspi_protocol.specs.news.Cases.{signal, event, reference};

/// A child comes, and goes from the place that it stood at; a child of another application is none.
pub fn children()
    ensures added { news_of (codes ":1.7")
        (event (codes "ChildrenChanged") (codes "add") 2 0 (reference (codes ":1.7") (codes "/c")))
        ≡ ChildAdded (codes "/c") }
    ensures added_elsewhere { news_of (codes ":1.7")
        (event (codes "ChildrenChanged") (codes "add") 2 0 (reference (codes ":1.8") (codes "/c"))) ≡ Nothing }
    ensures removed { news_of (codes ":1.7")
        (event (codes "ChildrenChanged") (codes "remove") 2 0 (reference (codes ":1.7") (codes "/c")))
        ≡ ChildRemoved (codes "/n") (pos 2) (codes "/c") }
    ensures removed_below_0 { news_of (codes ":1.7")
        (event (codes "ChildrenChanged") (codes "remove") (2 ^ 32 - 1) 0 (reference (codes ":1.7") (codes "/c")))
        ≡ ChildRemoved (codes "/n") (negsuc 0) (codes "/c") }
    ensures removed_elsewhere { news_of (codes ":1.7")
        (event (codes "ChildrenChanged") (codes "remove") 2 0 (reference (codes ":1.8") (codes "/c"))) ≡ Nothing }
    ensures no_reference { news_of (codes ":1.7")
        (event (codes "ChildrenChanged") (codes "add") 2 0 (text_data (codes "/c"))) ≡ Nothing }
    ensures other { news_of (codes ":1.7")
        (event (codes "ChildrenChanged") (codes "adds") 2 0 (reference (codes ":1.7") (codes "/c"))) ≡ Nothing }
{}

/// Names, descriptions and roles, each with the type that it has.
pub fn properties()
    ensures name { news_of (codes ":1.7")
        (event (codes "PropertyChange") (codes "accessible-name") 0 0 (text_data (codes "X")))
        ≡ Name (codes "/n") (codes "X") }
    ensures description { news_of (codes ":1.7")
        (event (codes "PropertyChange") (codes "accessible-description") 0 0 (text_data (codes "X")))
        ≡ Description (codes "/n") (codes "X") }
    ensures role { news_of (codes ":1.7")
        (event (codes "PropertyChange") (codes "accessible-role") 0 0 (number_data u32 43)) ≡ Role (codes "/n") 43 }
    ensures large_role { news_of (codes ":1.7")
        (event (codes "PropertyChange") (codes "accessible-role") 0 0 (number_data u32 4294967295))
        ≡ Role (codes "/n") 4294967295 }
    ensures signed_role { news_of (codes ":1.7")
        (event (codes "PropertyChange") (codes "accessible-role") 0 0 (number_data i32 43)) ≡ Role (codes "/n") 43 }
    ensures negative_role { news_of (codes ":1.7")
        (event (codes "PropertyChange") (codes "accessible-role") 0 0 (number_data i32 4294967295)) ≡ Nothing }
    ensures role_of_text { news_of (codes ":1.7")
        (event (codes "PropertyChange") (codes "accessible-role") 0 0 (text_data (codes "43"))) ≡ Nothing }
    ensures name_of_number { news_of (codes ":1.7")
        (event (codes "PropertyChange") (codes "accessible-name") 0 0 (number_data u32 1)) ≡ Nothing }
    ensures parent { news_of (codes ":1.7")
        (event (codes "PropertyChange") (codes "accessible-parent") 0 0 (reference (codes ":1.7") (codes "/c")))
        ≡ Nothing }
{}

/// States by their names, whatever the value.
#[tactic(auto, unfolding(atspi_tables::specs::States::state_names))]
pub fn states()
    ensures first { news_of (codes ":1.7") (event (codes "StateChanged") (codes "invalid") 1 0 (number_data i32 0))
        ≡ State (codes "/n") 0 true }
    ensures focused { news_of (codes ":1.7") (event (codes "StateChanged") (codes "focused") 1 0 (number_data i32 0))
        ≡ State (codes "/n") 12 true }
    ensures last { news_of (codes ":1.7") (event (codes "StateChanged") (codes "read-only") 1 0 (number_data i32 0))
        ≡ State (codes "/n") 43 true }
    ensures off { news_of (codes ":1.7") (event (codes "StateChanged") (codes "focused") 0 1 (text_data []))
        ≡ State (codes "/n") 12 false }
    ensures two { news_of (codes ":1.7") (event (codes "StateChanged") (codes "focused") 2 0 (number_data i32 0))
        ≡ State (codes "/n") 12 true }
    ensures negative { news_of (codes ":1.7")
        (event (codes "StateChanged") (codes "focused") 4294967295 0 (number_data i32 0))
        ≡ State (codes "/n") 12 true }
    ensures default { news_of (codes ":1.7") (event (codes "StateChanged") (codes "default") 1 0 (number_data i32 0))
        ≡ State (codes "/n") 39 true }
    ensures is_default { news_of (codes ":1.7")
        (event (codes "StateChanged") (codes "is-default") 0 0 (number_data i32 0)) ≡ State (codes "/n") 39 false }
    ensures unknown { news_of (codes ":1.7") (event (codes "StateChanged") (codes "Focused") 1 0 (number_data i32 0))
        ≡ Nothing }
{}

/// Text that comes and goes, and the caret.
pub fn texts()
    ensures inserted { news_of (codes ":1.7")
        (event (codes "TextChanged") (codes "insert") 3 2 (text_data (codes "hi")))
        ≡ Inserted (codes "/n") (pos 3) (codes "hi") }
    ensures inserted_so { news_of (codes ":1.7")
        (event (codes "TextChanged") (codes "insert:system") 3 2 (text_data (codes "hi")))
        ≡ Inserted (codes "/n") (pos 3) (codes "hi") }
    ensures deleted { news_of (codes ":1.7") (event (codes "TextChanged") (codes "delete") 3 2 (text_data (codes "hi")))
        ≡ Deleted (codes "/n") (pos 3) (pos 2) (codes "hi") }
    ensures deleted_so { news_of (codes ":1.7")
        (event (codes "TextChanged") (codes "delete:system") 3 2 (text_data (codes "hi")))
        ≡ Deleted (codes "/n") (pos 3) (pos 2) (codes "hi") }
    ensures negative { news_of (codes ":1.7")
        (event (codes "TextChanged") (codes "delete") 4294967295 4294967294 (text_data (codes "hi")))
        ≡ Deleted (codes "/n") (negsuc 0) (negsuc 1) (codes "hi") }
    ensures other_minor { news_of (codes ":1.7")
        (event (codes "TextChanged") (codes "inser") 3 2 (text_data (codes "hi"))) ≡ Nothing }
    ensures no_text { news_of (codes ":1.7") (event (codes "TextChanged") (codes "insert") 3 2 (number_data i32 0))
        ≡ Nothing }
    ensures no_text_deleted { news_of (codes ":1.7")
        (event (codes "TextChanged") (codes "delete") 3 2 (number_data i32 0)) ≡ Nothing }
    ensures caret { news_of (codes ":1.7") (event (codes "TextCaretMoved") (codes "x") 3 1 (text_data (codes "hi")))
        ≡ Caret (codes "/n") (pos 3) }
    ensures negative_caret { news_of (codes ":1.7") (event (codes "TextCaretMoved") [] 4294967295 0 (number_data i32 0))
        ≡ Caret (codes "/n") (negsuc 0) }
    ensures other_event { news_of (codes ":1.7") (event (codes "BoundsChanged") [] 3 0 (number_data i32 0)) ≡ Nothing }
{}

/// The four arguments that an event must have, and what may follow them.
pub fn arguments()
    ensures four { news_of (codes ":1.7")
        (signal (codes "/n") event_interface (codes "TextCaretMoved")
        (text_data []
        ∷ (number_data i32 3 ∷ (number_data i32 0 ∷ (variant_data (number i32) (number_data i32 0) ∷ [])))))
        ≡ Caret (codes "/n") (pos 3) }
    ensures five { news_of (codes ":1.7")
        (signal (codes "/n") event_interface (codes "TextCaretMoved")
        (text_data []
        ∷ (number_data i32 3
        ∷ (number_data i32 0
        ∷ (variant_data (number i32) (number_data i32 0)
        ∷ (reference (codes ":1.7") (codes "/r") ∷ [])))))) ≡ Caret (codes "/n") (pos 3) }
    ensures three { news_of (codes ":1.7")
        (signal (codes "/n") event_interface (codes "TextCaretMoved")
        (text_data [] ∷ (number_data i32 3 ∷ (number_data i32 0 ∷ [])))) ≡ Nothing }
    ensures unsigned { news_of (codes ":1.7")
        (signal (codes "/n") event_interface (codes "TextCaretMoved")
        (text_data []
        ∷ (number_data u32 3 ∷ (number_data i32 0 ∷ (variant_data (number i32) (number_data i32 0) ∷ [])))))
        ≡ Nothing }
    ensures unsigned_second { news_of (codes ":1.7")
        (signal (codes "/n") event_interface (codes "TextCaretMoved")
        (text_data []
        ∷ (number_data i32 3 ∷ (number_data u32 0 ∷ (variant_data (number i32) (number_data i32 0) ∷ [])))))
        ≡ Nothing }
    ensures no_minor { news_of (codes ":1.7")
        (signal (codes "/n") event_interface (codes "TextCaretMoved")
        (number_data i32 0
        ∷ (number_data i32 3 ∷ (number_data i32 0 ∷ (variant_data (number i32) (number_data i32 0) ∷ [])))))
        ≡ Nothing }
    ensures no_variant { news_of (codes ":1.7")
        (signal (codes "/n") event_interface (codes "TextCaretMoved")
        (text_data [] ∷ (number_data i32 3 ∷ (number_data i32 0 ∷ (number_data i32 0 ∷ []))))) ≡ Nothing }
    ensures call { news_of (codes ":1.7")
        (record (event (codes "TextCaretMoved") [] 3 0 (number_data i32 0)) { kind = 1 }) ≡ Nothing }
    ensures other_interface { news_of (codes ":1.7")
        (record (event (codes "TextCaretMoved") [] 3 0 (number_data i32 0))
        { interface = Some (codes "org.a11y.atspi.Event.Window") }) ≡ Nothing }
    ensures no_path { news_of (codes ":1.7")
        (record (event (codes "TextCaretMoved") [] 3 0 (number_data i32 0)) { path = None }) ≡ Nothing }
    ensures no_interface { news_of (codes ":1.7")
        (record (event (codes "TextCaretMoved") [] 3 0 (number_data i32 0)) { interface = None }) ≡ Nothing }
{}
