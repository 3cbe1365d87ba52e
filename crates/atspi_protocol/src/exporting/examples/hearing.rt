//! Listeners' patterns.

ghost use Rattle.std.specs.Prelude.{◌≡◌, ◌∷◌, [], None, Some, true, false, codes};
ghost use Rattle.atspi_types.specs.Data.{text_data, structure_data, array_data, items_of};
ghost use Rattle.atspi_types.specs.Kinds.{text};
ghost use Rattle.atspi_protocol.specs.exporting.Exporter.{hears, deaf};
ghost use Rattle.atspi_protocol.specs.exporting.Hearing.{Change, is_covered, one_more, one_less, exchanged};
ghost use Rattle.atspi_protocol.specs.exporting.Hearing.{heard_after, pairs_in};
ghost use Rattle.atspi_protocol.specs.exporting.Cases.{properties, children, pairs_data, pair_texts, told};

/// An event is covered where some pattern covers it.
pub fn covered()
    ensures second { is_covered (children ∷ properties ∷ []) (codes "property-change") (codes "accessible-name")
        ≡ true }
    ensures another { is_covered (children ∷ properties ∷ []) (codes "text-changed") (codes "insert") ≡ false }
    ensures another_word { is_covered (children ∷ []) (codes "children-changed") (codes "remove") ≡ false }
    ensures nobody { is_covered [] (codes "property-change") (codes "accessible-name") ≡ false }
{}

/// A pair is added once, and removed where it is heard.
pub fn changed()
    ensures added { one_more (children ∷ []) properties
        ≡ record {
          heard = children ∷ properties ∷ [];
          told = hears (codes ":1.2") (codes "object:property-change") ∷ [];
        } }
    ensures twice { one_more (children ∷ []) children ≡ record { heard = children ∷ []; told = [] } }
    ensures of_another { (one_more (children ∷ []) (codes ":1.3", codes "object:children-changed:add")).heard
        ≡ children ∷ (codes ":1.3", codes "object:children-changed:add") ∷ [] }
    ensures removed { one_less (children ∷ properties ∷ []) children
        ≡ record { heard = properties ∷ []; told = deaf (codes ":1.2") (codes "object:children-changed:add") ∷ [] } }
    ensures absent { one_less (properties ∷ []) children ≡ record { heard = properties ∷ []; told = [] } }
    ensures listed { exchanged (children ∷ []) (properties ∷ properties ∷ [])
        ≡ record {
          heard = properties ∷ [];
          told = deaf (codes ":1.2") (codes "object:children-changed:add")
              ∷ hears (codes ":1.2") (codes "object:property-change") ∷ [];
        } }
    ensures kept { exchanged (children ∷ []) (properties ∷ children ∷ [])
        ≡ record {
          heard = children ∷ properties ∷ [];
          told = hears (codes ":1.2") (codes "object:property-change") ∷ [];
        } }
    ensures emptied { exchanged (children ∷ []) []
        ≡ record { heard = []; told = deaf (codes ":1.2") (codes "object:children-changed:add") ∷ [] } }
{}

/// Two of the registry's signals change them, whoever sends them; what follows the first two texts does not count.
#[tactic(auto, unfolding(atspi_base::specs::valid_names::Names::is_bus_name, atspi_base::specs::valid_names::Elements::are_two_or_more, atspi_base::specs::valid_names::Elements::are_elements, atspi_base::specs::valid_names::Elements::parts_of, atspi_tree_model::specs::Path::path_of))]
pub fn signals()
    ensures registered { (heard_after [] (told (codes "EventListenerRegistered") (pair_texts children))).heard
        ≡ children ∷ [] }
    ensures longer { (heard_after []
        (told (codes "EventListenerRegistered")
        (text_data (codes ":1.2") ∷ text_data (codes "object:children-changed:add") ∷ text_data [] ∷ []))).heard
        ≡ children ∷ [] }
    ensures deregistered { (heard_after (children ∷ [])
        (told (codes "EventListenerDeregistered") (pair_texts children))).heard ≡ [] }
    ensures another { (heard_after (children ∷ []) (told (codes "Other") (pair_texts properties))).heard
        ≡ children ∷ [] }
    ensures no_bus_name { (heard_after []
        (told (codes "EventListenerRegistered") (pair_texts (codes "x", codes "object")))).heard ≡ [] }
    ensures one_text { (heard_after [] (told (codes "EventListenerRegistered") (text_data (codes ":1.2") ∷ []))).heard
        ≡ [] }
    ensures interface { (heard_after []
        (record (told (codes "EventListenerRegistered") (pair_texts children))
        { interface = Some (codes "org.a11y.atspi.Socket") })).heard ≡ [] }
{}

/// A list of pairs.
#[tactic(auto, unfolding(atspi_base::specs::valid_names::Names::is_bus_name, atspi_base::specs::valid_names::Elements::are_two_or_more, atspi_base::specs::valid_names::Elements::are_elements, atspi_base::specs::valid_names::Elements::parts_of, atspi_tree_model::specs::Path::path_of))]
pub fn lists()
    ensures two { pairs_in (pairs_data (children ∷ properties ∷ []) ∷ []) ≡ Some (children ∷ properties ∷ []) }
    ensures none { pairs_in (pairs_data [] ∷ []) ≡ Some [] }
    ensures texts { pairs_in (array_data text (items_of []) ∷ []) ≡ None }
    ensures twice { pairs_in (pairs_data [] ∷ pairs_data [] ∷ []) ≡ None }
    ensures no_bus_name { pairs_in (pairs_data (children ∷ (codes "x", codes "object") ∷ []) ∷ []) ≡ None }
    ensures nothing { pairs_in [] ≡ None }
{}
