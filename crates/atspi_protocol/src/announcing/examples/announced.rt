//! The signals of each step.

ghost use Rattle.std.specs.Prelude.{◌≡◌, ◌∷◌, [], None, Some, pos, negsuc, true, false, codes};
ghost use Rattle.atspi_types.specs.Kinds.{u32, i32, number, text, variant, structure, kinds_of, path};
ghost use Rattle.atspi_types.specs.Data.{text_data, number_data, structure_data, variant_data, dictionary_data};
ghost use Rattle.atspi_types.specs.Data.{items_of, entries_of};
ghost use Rattle.atspi_types.specs.declared.fault.Order.TheVariants.{Little};
ghost use Rattle.atspi_tree_model.specs.Path.{path_of};
ghost use Rattle.atspi_protocol.specs.ends.Places.{reference};
ghost use Rattle.atspi_protocol.specs.members.Arguments.{int};
ghost use Rattle.atspi_protocol.specs.objects.Values.{texts_data, words_data};
ghost use Rattle.atspi_protocol.specs.objects.Cases.{to};
ghost use Rattle.atspi_protocol.specs.announcing.Cases.{events, bodies, first, new, button_item};

use atspi_tree_model::Step;

/// A whole signal: no destination, no sender, no number yet, and the flag that no reply is expected.
pub fn whole()
    ensures caret { (first (Step.Caret 5 4)).message ≡ record {
      order = Little;
      kind = 4;
      flags = 1;
      serial = 0;
      path = Some (path_of 5);
      interface = Some (codes "org.a11y.atspi.Event.Object");
      member = Some (codes "TextCaretMoved");
      error = None;
      reply = None;
      destination = None;
      sender = None;
      body = text_data [] ∷ int (pos 4) ∷ int (pos 0) ∷ variant_data (number i32) (int (pos 0))
          ∷ dictionary_data text variant (entries_of []) ∷ [];
    } }
    ensures event { (first (Step.Caret 5 4)).event ≡ codes "text-caret-moved" }
    ensures minor { (first (Step.Caret 5 4)).minor ≡ [] }
    ensures cache_path { (first (Step.Move 12 1 0)).message.path ≡ Some (codes "/org/a11y/atspi/cache") }
    ensures cache { (first (Step.Move 12 1 0)).message.interface ≡ Some (codes "org.a11y.atspi.Cache") }
{}

/// A node that is added, removed or moved: the events by which patterns cover the signals, in order, with the members
/// and the nodes.
pub fn nodes()
    ensures add { events (Step.Add 17 1 3 new)
        ≡ (codes "children-changed", codes "add", codes "AddAccessible")
        ∷ (codes "children-changed", codes "add", codes "ChildrenChanged") ∷ [] }
    ensures remove { events (Step.Remove 13) ≡ (codes "children-changed", codes "remove", codes "ChildrenChanged")
        ∷ (codes "children-changed", codes "remove", codes "RemoveAccessible")
        ∷ (codes "children-changed", codes "remove", codes "RemoveAccessible")
        ∷ (codes "children-changed", codes "remove", codes "RemoveAccessible")
        ∷ (codes "children-changed", codes "remove", codes "RemoveAccessible") ∷ [] }
    ensures moved { events (Step.Move 12 1 0) ≡ (codes "children-changed", codes "add", codes "AddAccessible")
        ∷ (codes "children-changed", codes "remove", codes "ChildrenChanged")
        ∷ (codes "property-change", codes "accessible-parent", codes "PropertyChange")
        ∷ (codes "children-changed", codes "add", codes "ChildrenChanged") ∷ [] }
{}

/// What these signals say.
pub fn bodies_of_nodes()
    ensures add { bodies (Step.Add 17 1 3 new)
        ≡ (
          Some (codes "/org/a11y/atspi/cache"),
          structure_data
              (items_of
              (to 17 ∷ to 0 ∷ to 1 ∷ int (pos 3) ∷ int (pos 0) ∷ texts_data (codes "org.a11y.atspi.Accessible" ∷ [])
              ∷ text_data (codes "N") ∷ number_data u32 29 ∷ text_data [] ∷ words_data 1124073728 ∷ [])) ∷ [],
        )
        ∷ (
          Some (path_of 1),
          text_data (codes "add") ∷ int (pos 3) ∷ int (pos 0)
              ∷ variant_data (structure (kinds_of (text ∷ path ∷ []))) (to 17)
              ∷ dictionary_data text variant (entries_of []) ∷ [],
        ) ∷ [] }
    ensures remove { bodies (Step.Remove 14)
        ≡ (
          Some (path_of 13),
          text_data (codes "remove") ∷ int (pos 0) ∷ int (pos 0)
              ∷ variant_data (structure (kinds_of (text ∷ path ∷ []))) (to 14)
              ∷ dictionary_data text variant (entries_of []) ∷ [],
        )
        ∷ (Some (codes "/org/a11y/atspi/cache"), to 14 ∷ []) ∷ [] }
    ensures moved { bodies (Step.Move 12 1 0)
        ≡ (Some (codes "/org/a11y/atspi/cache"), button_item (to 1) 0 ∷ [])
        ∷ (
          Some (path_of 0),
          text_data (codes "remove") ∷ int (pos 3) ∷ int (pos 0)
              ∷ variant_data (structure (kinds_of (text ∷ path ∷ []))) (to 12)
              ∷ dictionary_data text variant (entries_of []) ∷ [],
        )
        ∷ (
          Some (path_of 12),
          text_data (codes "accessible-parent") ∷ int (pos 0) ∷ int (pos 0)
              ∷ variant_data (structure (kinds_of (text ∷ path ∷ []))) (to 1)
              ∷ dictionary_data text variant (entries_of []) ∷ [],
        )
        ∷ (
          Some (path_of 1),
          text_data (codes "add") ∷ int (pos 0) ∷ int (pos 0)
              ∷ variant_data (structure (kinds_of (text ∷ path ∷ []))) (to 12)
              ∷ dictionary_data text variant (entries_of []) ∷ [],
        ) ∷ [] }
{}

/// Every other step is one signal, or none.
#[tactic(auto, unfolding(atspi_tables::specs::States::state_names))]
pub fn changes()
    ensures name { events (Step.SetName 5 (codes "U"))
        ≡ (codes "property-change", codes "accessible-name", codes "PropertyChange") ∷ [] }
    ensures name_body { bodies (Step.SetName 5 (codes "U"))
        ≡ (
          Some (path_of 5),
          text_data (codes "accessible-name") ∷ int (pos 0) ∷ int (pos 0)
              ∷ variant_data text (text_data (codes "U")) ∷ dictionary_data text variant (entries_of []) ∷ [],
        )
        ∷ [] }
    ensures description { bodies (Step.SetDescription 5 (codes "U"))
        ≡ (
          Some (path_of 5),
          text_data (codes "accessible-description") ∷ int (pos 0) ∷ int (pos 0)
              ∷ variant_data text (text_data (codes "U")) ∷ dictionary_data text variant (entries_of []) ∷ [],
        )
        ∷ [] }
    ensures role { bodies (Step.SetRole 5 43)
        ≡ (
          Some (path_of 5),
          text_data (codes "accessible-role") ∷ int (pos 0) ∷ int (pos 0)
              ∷ variant_data (number u32) (number_data u32 43) ∷ dictionary_data text variant (entries_of [])
              ∷ [],
        ) ∷ [] }
    ensures role_event { events (Step.SetRole 5 43)
        ≡ (codes "property-change", codes "accessible-role", codes "PropertyChange") ∷ [] }
    ensures on { bodies (Step.SetState 5 12 true)
        ≡ (
          Some (path_of 5),
          text_data (codes "focused") ∷ int (pos 1) ∷ int (pos 0) ∷ variant_data (number i32) (int (pos 0))
              ∷ dictionary_data text variant (entries_of []) ∷ [],
        ) ∷ [] }
    ensures off { bodies (Step.SetState 5 39 false)
        ≡ (
          Some (path_of 5),
          text_data (codes "is-default") ∷ int (pos 0) ∷ int (pos 0) ∷ variant_data (number i32) (int (pos 0))
              ∷ dictionary_data text variant (entries_of []) ∷ [],
        ) ∷ [] }
    ensures state { events (Step.SetState 5 12 true)
        ≡ (codes "state-changed", codes "focused", codes "StateChanged") ∷ [] }
    ensures insert { bodies (Step.Insert 5 2 (codes "ab"))
        ≡ (
          Some (path_of 5),
          text_data (codes "insert") ∷ int (pos 2) ∷ int (pos 2) ∷ variant_data text (text_data (codes "ab"))
              ∷ dictionary_data text variant (entries_of []) ∷ [],
        ) ∷ [] }
    ensures insert_event { events (Step.Insert 5 2 (codes "ab"))
        ≡ (codes "text-changed", codes "insert", codes "TextChanged") ∷ [] }
    ensures delete { bodies (Step.Delete 5 0 (codes "abc"))
        ≡ (
          Some (path_of 5),
          text_data (codes "delete") ∷ int (pos 0) ∷ int (pos 3) ∷ variant_data text (text_data (codes "abc"))
              ∷ dictionary_data text variant (entries_of []) ∷ [],
        ) ∷ [] }
    ensures delete_event { events (Step.Delete 5 0 (codes "abc"))
        ≡ (codes "text-changed", codes "delete", codes "TextChanged") ∷ [] }
    ensures selections { events (Step.TextSelect 5 []) ≡ [] }
    ensures relations { events (Step.Relate 5 1 []) ≡ [] }
{}
