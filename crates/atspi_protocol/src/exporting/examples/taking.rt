//! Edits and calls: steps, the signals that are asked for, and the reply.

ghost use Rattle.std.specs.Prelude.{◌≡◌, ◌∷◌, [], None, Some, Ok, Err, true, false, pos, negsuc, codes};
ghost use Rattle.atspi_types.specs.Data.{text_data, variant_data, dictionary_data, entries_of};
ghost use Rattle.atspi_types.specs.Kinds.{number, i32, u32, text, variant};
ghost use Rattle.atspi_types.specs.declared.fault.Order.TheVariants.{Little};
ghost use Rattle.atspi_protocol.specs.members.Arguments.{int};
ghost use Rattle.atspi_protocol.specs.exporting.Exporter.{steps, sends};
ghost use Rattle.atspi_protocol.specs.exporting.Taking.{app_takes, app_edits, is_spent};
ghost use Rattle.atspi_protocol.specs.exporting.Cases.{begun, ready, handed_out, greeted, properties, children};
ghost use Rattle.atspi_protocol.specs.exporting.Cases.{at_edit, at_message, a_step, a_message, a_pattern, brief};
ghost use Rattle.atspi_protocol.specs.exporting.Cases.{asks_root, told, pair_texts, label};

use atspi_tree_model::{Edit, EditFault, Step};

/// Edits, with the signals that some pattern covers.
#[tactic(auto, unfolding(atspi_base::specs::valid_names::Names::is_bus_name, atspi_base::specs::valid_names::Elements::are_two_or_more, atspi_base::specs::valid_names::Elements::are_elements, atspi_base::specs::valid_names::Elements::parts_of, atspi_tree_model::specs::Path::path_of))]
pub fn edits()
    ensures name { at_edit (ready (properties ∷ [])) (Edit.Name 0 (codes "U"))
        ≡ steps (Step.SetName 0 (codes "U")) ∷ sends (record {
          order = Little;
          kind = 4;
          flags = 1;
          serial = 5;
          path = Some (codes "/org/a11y/atspi/accessible/root");
          interface = Some (codes "org.a11y.atspi.Event.Object");
          member = Some (codes "PropertyChange");
          error = None;
          reply = None;
          destination = None;
          sender = None;
          body = text_data (codes "accessible-name") ∷ int (pos 0) ∷ int (pos 0)
              ∷ variant_data text (text_data (codes "U")) ∷ dictionary_data text variant (entries_of []) ∷ [];
        }) ∷ [] }
    ensures insert { at_edit (ready (properties ∷ [])) (Edit.Insert 0 0 label) ≡ steps (Step.Add 1 0 0 label) ∷ [] }
    ensures insert_heard { brief (at_edit (ready (children ∷ [])) (Edit.Insert 0 0 label))
        ≡ a_step (Step.Add 1 0 0 label) ∷ a_message (Some (codes "AddAccessible")) 5
        ∷ a_message (Some (codes "ChildrenChanged")) 6 ∷ [] }
    ensures nothing { at_edit (ready (properties ∷ [])) (Edit.Name 0 (codes "T")) ≡ [] }
    ensures refused { app_edits (ready []) (Edit.Remove 0) ≡ Err EditFault.IsRoot }
    ensures before_start { brief (at_edit (handed_out begun) (Edit.Name 0 (codes "U")))
        ≡ a_step (Step.SetName 0 (codes "U")) ∷ [] }
{}

/// Calls: a reply in its order and with its number; none with the flag, none without a sender.
#[tactic(auto, unfolding(atspi_base::specs::valid_names::Names::is_bus_name, atspi_base::specs::valid_names::Elements::are_two_or_more, atspi_base::specs::valid_names::Elements::are_elements, atspi_base::specs::valid_names::Elements::parts_of, atspi_tree_model::specs::Path::path_of))]
pub fn calls()
    ensures child_count { at_message (ready [])
        (asks_root (codes "org.freedesktop.DBus.Properties") (codes "Get")
        (text_data (codes "org.a11y.atspi.Accessible") ∷ text_data (codes "ChildCount") ∷ [])) ≡ sends (record {
          order = Little;
          kind = 2;
          flags = 1;
          serial = 5;
          path = None;
          interface = None;
          member = None;
          error = None;
          reply = Some 9;
          destination = Some (codes ":1.2");
          sender = None;
          body = variant_data (number i32) (int (pos 0)) ∷ [];
        }) ∷ [] }
    ensures early { brief
        (at_message (handed_out greeted) (asks_root (codes "org.freedesktop.DBus.Peer") (codes "Ping") []))
        ≡ a_message None 3 ∷ [] }
    ensures no_object { at_message (ready [])
        (record (asks_root (codes "org.freedesktop.DBus.Peer") (codes "Ping") []) { path = Some (codes "/x") })
        ≡ sends (record {
          order = Little;
          kind = 3;
          flags = 1;
          serial = 5;
          path = None;
          interface = None;
          member = None;
          error = Some (codes "org.freedesktop.DBus.Error.UnknownObject");
          reply = Some 9;
          destination = Some (codes ":1.2");
          sender = None;
          body = text_data (codes "UnknownObject") ∷ [];
        }) ∷ [] }
    ensures unexpecting { at_message (ready [])
        (record (asks_root (codes "org.freedesktop.DBus.Peer") (codes "Ping") []) { flags = 1 }) ≡ [] }
    ensures senderless { at_message (ready [])
        (record (asks_root (codes "org.freedesktop.DBus.Peer") (codes "Ping") []) { sender = None }) ≡ [] }
    ensures set { (app_takes (ready [])
        (record (asks_root (codes "org.freedesktop.DBus.Properties") (codes "Set")
        (text_data (codes "org.a11y.atspi.Application") ∷ text_data (codes "Id")
        ∷ variant_data (number i32) (int (pos 4)) ∷ [])) { flags = 1 })).id ≡ pos 4 }
    ensures own_number { (ready []).id ≡ negsuc 0 }
{}

/// Signals of the registry are heard; the last number that there is can be used.
#[tactic(auto, unfolding(atspi_base::specs::valid_names::Names::is_bus_name, atspi_base::specs::valid_names::Elements::are_two_or_more, atspi_base::specs::valid_names::Elements::are_elements, atspi_base::specs::valid_names::Elements::parts_of, atspi_tree_model::specs::Path::path_of))]
pub fn others()
    ensures registered { (app_takes (ready []) (told (codes "EventListenerRegistered") (pair_texts children))).heard
        ≡ children ∷ [] }
    ensures told { brief (at_message (ready []) (told (codes "EventListenerRegistered") (pair_texts children)))
        ≡ a_pattern (codes "object:children-changed:add") ∷ [] }
    ensures other_type { app_takes (ready [])
        (record (told (codes "EventListenerRegistered") (pair_texts children)) { kind = 5 }) ≡ ready [] }
    ensures nearly { is_spent (record (ready []) { next = 4294967296 }) ≡ false }
    ensures spent { is_spent (record (ready []) { next = 4294967297 }) ≡ true }
{}
