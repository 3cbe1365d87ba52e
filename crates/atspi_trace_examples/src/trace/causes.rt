//! What a cause writes and leaves behind, part by part.

ghost use Rattle.std.specs.Prelude.{◌≡◌, ◌∷◌, [], None, Some, Err, codes, pos, negsuc, true, false};
ghost use Rattle.atspi_tree_model.specs.Forest.{nil};
ghost use Rattle.atspi_tree_model.specs.declared.step.Step.TheVariants.{SetName, Caret as Caret_step};
ghost use Rattle.atspi_script_lines.specs.declared.deed.Deed.TheVariants.{SetCaret};
ghost use Rattle.atspi_script_lines.specs.declared.line.Party.TheVariants as party;
ghost use Rattle.atspi_protocol.specs.announcing.Signals.{caret_moved, property_changed};
ghost use Rattle.atspi_protocol.specs.declared.following.question.Question.TheVariants.{AddMatch, Hello};
ghost use Rattle.atspi_protocol.specs.declared.news.part.PartName.TheVariants.{Text, Caret, Columns};
ghost use Rattle.atspi_protocol.specs.exporting.Exporter.{begins, deaf, hears, sends, steps};
ghost use Rattle.atspi_protocol.specs.following.Calls.{asking};
ghost use Rattle.atspi_protocol.specs.registering.RegistryState.{begins as no_registry};
ghost use Rattle.atspi_match.specs.routing.Queues.{Bus};
ghost use Rattle.atspi_speech.specs.Cases.{row, window};
ghost use Rattle.atspi_types.specs.Data.{text_data};
ghost use Rattle.atspi_trace.specs.Entry.{changed, got, heard, sent, showed, unheard};
ghost use Rattle.atspi_trace.specs.World.{World, a_reader, an_application, first_registry, the_registry};
ghost use Rattle.atspi_trace.specs.Ends.{plain};
ghost use Rattle.atspi_trace.specs.Causes as cause;
ghost use Rattle.atspi_trace.specs.Causes.{announced_if, called, did, edited, edited_to, index_below, on_end, only};
ghost use Rattle.atspi_trace.specs.Causes.{registry_did, routed, rows_held, saids, shown_row, shown_rows, taken};
ghost use Rattle.atspi_trace.specs.Causes.{told_in, took};
ghost use Rattle.atspi_trace_examples.specs.trace.Small.{app, exporter, idle, letter_from, other_said, said, world};

use atspi_tree_model::{Edit, EditFault};

/// What an application did, as entries.
pub fn pairs()
    ensures step { did 3 (steps (SetName 0 (codes "U"))) ≡ changed 3 (SetName 0 (codes "U")) }
    ensures message { did 3 (sends (asking 1 Hello)) ≡ sent (party.App 3) (asking 1 Hello) }
    ensures hears { did 3 (hears (codes ":1.2") (codes "object")) ≡ heard 3 (codes ":1.2") (codes "object") }
    ensures deaf { did 3 (deaf (codes ":1.2") (codes "object")) ≡ unheard 3 (codes ":1.2") (codes "object") }
{}

/// A step is announced by the first of its signals, where a pattern covers that one.
pub fn announced()
    ensures none { announced_if ((codes ":1.2", codes "object:") ∷ []) (Caret_step 1 2) [] ≡ None }
    ensures covered { announced_if ((codes ":1.2", codes "object:text-caret-moved") ∷ []) (Caret_step 1 2)
        (caret_moved 1 2 ∷ []) ≡ Some (Caret_step 1 2) }
    ensures second_pair { announced_if
        ((codes ":1.2", codes "window") ∷ (codes ":1.2", codes "object:text-caret-moved") ∷ []) (Caret_step 1 2)
        (caret_moved 1 2 ∷ []) ≡ Some (Caret_step 1 2) }
    ensures not_covered { announced_if ((codes ":1.2", codes "object:property-change") ∷ []) (Caret_step 1 2)
        (caret_moved 1 2 ∷ []) ≡ None }
    ensures echo_alone { announced_if ((codes ":1.2", codes "object:property-change") ∷ []) (Caret_step 1 2)
        (caret_moved 1 2 ∷ property_changed 0 (codes "accessible-name") (text_data []) ∷ []) ≡ None }
    ensures nobody { announced_if [] (Caret_step 1 2) (caret_moved 1 2 ∷ []) ≡ None }
{}

/// Each message goes with the tree as it was then. Of the messages behind a step the first alone announces it, where
/// somebody asked for that.
#[tactic(auto, unfolding(atspi_tree_model::specs::Path::path_of))]
pub fn said_one_by_one()
    ensures nothing { saids exporter nil (Some (Caret_step 1 2)) [] ≡ [] }
    ensures first { saids exporter exporter.tree (Some (Caret_step 1 2))
        (sends said.message ∷ sends other_said.message ∷ [])
        ≡ record { message = said.message; tree = exporter.tree; announces = Some (Caret_step 1 2) }
        ∷ record { message = other_said.message; tree = exporter.tree; announces = None } ∷ [] }
    ensures behind_pairs { saids exporter exporter.tree None
        (hears (codes ":1.2") (codes "object") ∷ deaf (codes ":1.2") (codes "object") ∷ sends said.message ∷ [])
        ≡ record { message = said.message; tree = exporter.tree; announces = None } ∷ [] }
    ensures behind_step { saids (record exporter { heard = (codes ":1.2", codes "object:property-change") ∷ [] })
        exporter.tree None (sends other_said.message ∷ steps (SetName 0 (codes "U")) ∷ sends said.message ∷ [])
        ≡ record { message = other_said.message; tree = exporter.tree; announces = None }
        ∷ record { message = said.message; tree = (begins (codes "U")).tree; announces = Some (SetName 0 (codes "U")) }
        ∷ [] }
    ensures unheard_step { saids exporter exporter.tree None (steps (SetName 0 (codes "U")) ∷ sends said.message ∷ [])
        ≡ record { message = said.message; tree = (begins (codes "U")).tree; announces = None } ∷ [] }
{}

/// Which parts of a row were told, by its path.
pub fn shown()
    ensures text { told_in ((codes "/a", Text) ∷ []) (codes "/a")
        ≡ record { text = true; caret = false; columns = false } }
    ensures caret { told_in ((codes "/a", Caret) ∷ []) (codes "/a")
        ≡ record { text = false; caret = true; columns = false } }
    ensures columns { told_in ((codes "/a", Columns) ∷ []) (codes "/a")
        ≡ record { text = false; caret = false; columns = true } }
    ensures second { told_in ((codes "/b", Text) ∷ (codes "/a", Caret) ∷ []) (codes "/a")
        ≡ record { text = false; caret = true; columns = false } }
    ensures other { told_in ((codes "/b", Text) ∷ []) (codes "/a")
        ≡ record { text = false; caret = false; columns = false } }
{}

/// Rows as they are shown: the root has no parent and the index -1.
pub fn rows()
    ensures root { index_below None 4 ≡ negsuc 0 }
    ensures below { index_below (Some (codes "/r")) 4 ≡ pos 4 }
    ensures seat { shown_row (Some (codes "/r"), 4, row (codes "/a") [] 7 0)
        ≡ record { parent = Some (codes "/r"); index = pos 4; row = row (codes "/a") [] 7 0 } }
    ensures view { shown_rows window
        ≡ record { parent = None; index = negsuc 0; row = row (codes "/r") (codes "Demo") 75 0 }
        ∷ record { parent = Some (codes "/r"); index = pos 0; row = row (codes "/a") (codes "Find") 7 4096 } ∷ [] }
    ensures not_held { rows_held None ≡ None }
{}

/// What an end of another kind is asked for does nothing, nor does a link on which nothing waits, nor an edit that is
/// refused.
pub fn idle_roles()
    ensures refused { (w : World) → edited_to w 1 exporter (Err EditFault.IsRoot) ≡ only w [] }
    ensures edit { (w : World) → edited w 4 (Edit.Remove 0) (a_reader idle) ≡ only w [] }
    ensures call { (w : World) → called w 1 (codes ":1.1") 0 (SetCaret 1) (an_application exporter) ≡ only w [] }
    ensures show { (w : World) → cause.shown w 1 0 (an_application exporter) ≡ only w [] }
    ensures up { (w : World) → routed w 1 (party.App 0) [] ≡ only w [] }
    ensures down { (w : World) → taken w 1 (app 0) [] ≡ only w [] }
    ensures nobody { (w : World) → on_end w None (λ e. only w (showed 0 0 None ∷ [])) ≡ only w [] }
{}

/// The registry and an application take a message: what they send waits on their up links.
pub fn on_links()
    ensures registry { registry_did (record { state = no_registry; sent = said.message ∷ other_said.message ∷ [] })
        first_registry ≡ record first_registry { role = the_registry no_registry; up = said ∷ other_said ∷ [] } }
    ensures app { (b : Bus)
        → took (world b idle) 2 (letter_from party.Bus said.message) (party.App 1) (an_application exporter)
        ≡ only (world b idle) (got (party.App 1) party.Bus 5 ∷ []) }
    ensures plain { plain (asking 6 (AddMatch (codes "y")))
        ≡ record { message = asking 6 (AddMatch (codes "y")); tree = nil; announces = None } }
{}
