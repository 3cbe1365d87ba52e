//! An application's queue, its start, and the numbers of its nodes.

ghost use Rattle.std.specs.Prelude.{◌≡◌, ◌∷◌, [], None, Some, true, false, codes};
ghost use Rattle.atspi_tree_model.specs.declared.step.Step.TheVariants.{Add, Remove, SetName};
ghost use Rattle.atspi_types.specs.Data.{text_data, structure_data, items_of};
ghost use Rattle.atspi_protocol.specs.ends.Messages.{call_to, return_to};
ghost use Rattle.atspi_protocol.specs.ends.Places.{reference};
ghost use Rattle.atspi_protocol.specs.exporting.Exporter.{awaits, begins, deaf, hears, hello, numbered, queues, sends};
ghost use Rattle.atspi_protocol.specs.exporting.Exporter.{sent_in, steps};
ghost use Rattle.atspi_protocol.specs.exporting.Hearing.{pair_of};
ghost use Rattle.atspi_protocol.specs.exporting.Starting.{awaited, is_number, name_or_empty, start_call};
ghost use Rattle.atspi_protocol.specs.exporting.Taking.{added_by, app_takes, stepped, takes_call, takes_other};
ghost use Rattle.atspi_protocol.specs.exporting.Exporter as exporter;
ghost use Rattle.atspi_protocol.specs.exporting.Cases.{asks_root, at_message, begun, label, ready, returned};
ghost use Rattle.atspi_examples.specs.protocol.Lists.{happenings, ping};

/// Messages take the numbers that follow; what else happens takes none, and stands where it stood.
pub fn numbers()
    ensures numbered { numbered 7 (happenings (SetName 0 (codes "U")))
        ≡ sends (record ping { serial = 7 }) ∷ hears (codes ":1.2") (codes "a") ∷ deaf (codes ":1.3") (codes "b")
        ∷ steps (SetName 0 (codes "U")) ∷ sends (record ping { serial = 8 }) ∷ [] }
    ensures none { numbered 7 [] ≡ [] }
{}

/// So many messages there are among what happens.
pub fn counts()
    ensures sent { sent_in (happenings (SetName 0 (codes "U"))) ≡ 2 }
    ensures none { sent_in [] ≡ 0 }
    ensures next { (queues (begins (codes "T")) (happenings (SetName 0 (codes "U")))).next ≡ 3 }
    ensures behind { (queues (record (begins (codes "T")) { out = sends ping ∷ [] })
        (deaf (codes ":1.3") (codes "b") ∷ [])).out ≡ sends ping ∷ deaf (codes ":1.3") (codes "b") ∷ [] }
{}

/// Nodes that are added count, and those that are removed count still.
pub fn edits()
    ensures none { added_by 4 [] ≡ 4 }
    ensures added { added_by 4 (Add 5 0 0 label ∷ []) ≡ 5 }
    ensures removed { added_by 5 (Add 6 0 0 label ∷ Remove 6 ∷ Add 7 0 0 label ∷ []) ≡ 7 }
    ensures after { (stepped (begins (codes "T")) (Add 1 0 0 label ∷ Add 2 0 0 label ∷ [])).added ≡ 2 }
    ensures renamed { (stepped (begins (codes "T")) (SetName 0 (codes "U") ∷ [])).tree ≡ (begins (codes "U")).tree }
{}

/// The calls of a start go to the bus and to the registry; the last one tells the root under its name.
pub fn starts()
    ensures hello { start_call [] hello
        ≡ call_to (codes "org.freedesktop.DBus") (codes "/org/freedesktop/DBus") (codes "org.freedesktop.DBus")
        (codes "Hello") [] }
    ensures embed { (start_call (codes ":1.5") exporter.embed).path ≡ Some (codes "/org/a11y/atspi/accessible/root") }
    ensures no_name { name_or_empty None ≡ [] }
    ensures name { name_or_empty (Some (codes ":1.5")) ≡ codes ":1.5" }
{}

/// A reply without a serial answers no call, nor does one with another serial or of another type.
pub fn refused_starts()
    ensures no_serial { is_number None 1 ≡ false }
    ensures serial { is_number (Some 1) 1 ≡ true }
    ensures other { is_number (Some 2) 1 ≡ false }
    ensures unserialed { app_takes begun (record (returned 1 (text_data (codes ":1.1") ∷ [])) { reply = None })
        ≡ begun }
    ensures signal { awaited (awaits hello 1) (record (returned 1 []) { kind = 4 }) ≡ None }
    ensures error { awaited (awaits hello 1) (record (returned 1 []) { kind = 3 }) ≡ Some hello }
    ensures over { awaited exporter.over (returned 1 []) ≡ None }
    ensures nameless { takes_other begun None ping ≡ begun }
    ensures of_nobody { takes_call (ready []) (codes ":1.1") ping ≡ ready [] }
{}

/// A call is answered under the application's own name, to its caller.
#[tactic(auto, unfolding(atspi_base::specs::valid_names::Names::is_bus_name, atspi_base::specs::valid_names::Elements::are_two_or_more, atspi_base::specs::valid_names::Elements::are_elements, atspi_base::specs::valid_names::Elements::parts_of, atspi_tree_model::specs::Path::path_of))]
pub fn own_names()
    ensures { at_message (ready []) (asks_root (codes "org.a11y.atspi.Accessible") (codes "GetApplication") [])
        ≡ sends
        (record (return_to (codes ":1.2") 9
        (reference (codes ":1.1") (codes "/org/a11y/atspi/accessible/root") ∷ [])) { serial = 5 })
        ∷ [] }
{}

/// What is no pair of two texts is none.
#[tactic(auto, unfolding(atspi_base::specs::valid_names::Names::is_bus_name, atspi_base::specs::valid_names::Elements::are_two_or_more, atspi_base::specs::valid_names::Elements::are_elements, atspi_base::specs::valid_names::Elements::parts_of))]
pub fn unlike()
    ensures pair { pair_of (structure_data (items_of (text_data (codes ":1.2") ∷ text_data (codes "object") ∷ [])))
        ≡ Some (codes ":1.2", codes "object") }
    ensures one { pair_of (structure_data (items_of (text_data (codes ":1.2") ∷ []))) ≡ None }
    ensures text { pair_of (text_data (codes ":1.2")) ≡ None }
    ensures no_name { pair_of (structure_data (items_of (text_data (codes "x") ∷ text_data (codes "object") ∷ [])))
        ≡ None }
{}
