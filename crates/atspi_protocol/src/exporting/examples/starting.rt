//! The start: four calls, each behind the return to the one before.

ghost use Rattle.std.specs.Prelude.{◌≡◌, ◌∷◌, ◌++◌, [], None, Some, codes};
ghost use Rattle.atspi_types.specs.Data.{text_data, path_data, structure_data, items_of};
ghost use Rattle.atspi_types.specs.declared.fault.Order.TheVariants.{Little};
ghost use Rattle.atspi_protocol.specs.exporting.Exporter.{hello, add_match, get_registered_events, embed, awaits, over};
ghost use Rattle.atspi_protocol.specs.exporting.Exporter.{sends, hears, begins};
ghost use Rattle.atspi_protocol.specs.exporting.Taking.{app_takes};
ghost use Rattle.atspi_protocol.specs.exporting.Cases.{begun, greeted, matched, listening, embedded, handed_out};
ghost use Rattle.atspi_protocol.specs.exporting.Cases.{returned, failed, pairs_data, properties, children, at_message};
ghost use Rattle.atspi_protocol.specs.exporting.Cases.{asks_root};

/// The calls as they are sent, and what is waited for.
#[tactic(auto, unfolding(atspi_base::specs::valid_names::Names::is_bus_name, atspi_base::specs::valid_names::Elements::are_two_or_more, atspi_base::specs::valid_names::Elements::are_elements, atspi_base::specs::valid_names::Elements::parts_of, atspi_tree_model::specs::Path::path_of))]
pub fn calls()
    ensures hello { begun.out ≡ sends (record {
      order = Little;
      kind = 1;
      flags = 0;
      serial = 1;
      path = Some (codes "/org/freedesktop/DBus");
      interface = Some (codes "org.freedesktop.DBus");
      member = Some (codes "Hello");
      error = None;
      reply = None;
      destination = Some (codes "org.freedesktop.DBus");
      sender = None;
      body = [];
    }) ∷ [] }
    ensures awaits_hello { begun.phase ≡ awaits hello 1 }
    ensures add_match { at_message (handed_out begun) (returned 1 (text_data (codes ":1.1") ∷ [])) ≡ sends (record {
      order = Little;
      kind = 1;
      flags = 0;
      serial = 2;
      path = Some (codes "/org/freedesktop/DBus");
      interface = Some (codes "org.freedesktop.DBus");
      member = Some (codes "AddMatch");
      error = None;
      reply = None;
      destination = Some (codes "org.freedesktop.DBus");
      sender = None;
      body = text_data (codes "type='signal',sender='org.a11y.atspi.Registry',interface='org.a11y.atspi.Registry'")
          ∷ [];
    }) ∷ [] }
    ensures name { greeted.name ≡ Some (codes ":1.1") }
    ensures awaits_match { greeted.phase ≡ awaits add_match 2 }
    ensures get_registered_events { at_message (handed_out greeted) (returned 2 []) ≡ sends (record {
      order = Little;
      kind = 1;
      flags = 0;
      serial = 3;
      path = Some (codes "/org/a11y/atspi/registry");
      interface = Some (codes "org.a11y.atspi.Registry");
      member = Some (codes "GetRegisteredEvents");
      error = None;
      reply = None;
      destination = Some (codes "org.a11y.atspi.Registry");
      sender = None;
      body = [];
    }) ∷ [] }
    ensures awaits_events { matched.phase ≡ awaits get_registered_events 3 }
    ensures embed { at_message (handed_out matched) (returned 3 (pairs_data (properties ∷ []) ∷ []))
        ≡ hears (codes ":1.2") (codes "object:property-change") ∷ sends (record {
          order = Little;
          kind = 1;
          flags = 0;
          serial = 4;
          path = Some (codes "/org/a11y/atspi/accessible/root");
          interface = Some (codes "org.a11y.atspi.Socket");
          member = Some (codes "Embed");
          error = None;
          reply = None;
          destination = Some (codes "org.a11y.atspi.Registry");
          sender = None;
          body =
              structure_data
              (items_of (text_data (codes ":1.1") ∷ path_data (codes "/org/a11y/atspi/accessible/root") ∷ [])) ∷ [];
        }) ∷ [] }
    ensures awaits_embed { (listening (properties ∷ [])).phase ≡ awaits embed 4 }
    ensures over { (embedded (properties ∷ [])).phase ≡ over }
    ensures heard { (embedded (properties ∷ children ∷ [])).heard ≡ properties ∷ children ∷ [] }
{}

/// An error or another body ends the start; what answers no call of it changes nothing.
#[tactic(auto, unfolding(atspi_base::specs::valid_names::Names::is_bus_name, atspi_base::specs::valid_names::Elements::are_two_or_more, atspi_base::specs::valid_names::Elements::are_elements, atspi_base::specs::valid_names::Elements::parts_of, atspi_tree_model::specs::Path::path_of))]
pub fn refused()
    ensures no_name { (app_takes begun (returned 1 (text_data (codes "a.b") ∷ []))).phase ≡ over }
    ensures nameless { (app_takes begun (returned 1 (text_data (codes "a.b") ∷ []))).name ≡ None }
    ensures no_body { (app_takes begun (returned 1 [])).phase ≡ over }
    ensures two_names { (app_takes begun (returned 1 (text_data (codes ":1.1") ∷ text_data (codes ":1.1") ∷ []))).phase
        ≡ over }
    ensures error { (app_takes begun (failed 1)).phase ≡ over }
    ensures another_serial { app_takes begun (returned 2 (text_data (codes ":1.1") ∷ [])) ≡ begun }
    ensures call { app_takes begun (asks_root (codes "org.freedesktop.DBus.Peer") (codes "Ping") []) ≡ begun }
    ensures before { app_takes (begins (codes "T")) (returned 1 (text_data (codes ":1.1") ∷ [])) ≡ begins (codes "T") }
    ensures no_rule { (app_takes greeted (failed 2)).phase ≡ over }
    ensures any_body { (app_takes greeted (returned 2 (text_data [] ∷ []))).phase ≡ awaits get_registered_events 3 }
    ensures no_pairs { (app_takes matched (returned 3 [])).phase ≡ over }
    ensures no_bus_name { (app_takes matched (returned 3 (pairs_data ((codes "x", codes "object") ∷ []) ∷ []))).phase
        ≡ over }
    ensures nothing_heard { (app_takes matched
        (returned 3 (pairs_data (properties ∷ (codes "x", codes "object") ∷ []) ∷ []))).heard ≡ [] }
    ensures empty_list { (app_takes matched (returned 3 (pairs_data [] ∷ []))).phase ≡ awaits embed 4 }
    ensures not_embedded { (app_takes (listening []) (failed 4)).phase ≡ over }
    ensures again { app_takes (embedded []) (returned 4 []) ≡ embedded [] }
{}
