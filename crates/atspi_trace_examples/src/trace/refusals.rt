//! Why a line is refused.

ghost use Rattle.std.specs.Prelude.{◌≡◌, ◌∷◌, [], ℕ, List, None, Some, codes, true};
ghost use Rattle.atspi_tree_model.specs.Edits.{is_long_name};
ghost use Rattle.atspi_script_lines.specs.declared.deed.Deed.TheVariants.{SetCaret};
ghost use Rattle.atspi_script_lines.specs.declared.line.Line.TheVariants as line;
ghost use Rattle.atspi_script_lines.specs.declared.line.Party.TheVariants as party;
ghost use Rattle.atspi_match.specs.routing.Queues.{Bus};
ghost use Rattle.atspi_trace.specs.World.{a_reader, an_application};
ghost use Rattle.atspi_trace.specs.Work.{call_refusal, dead, edit_refusal, late, no_kit, no_party, no_reader, no_spare};
ghost use Rattle.atspi_trace.specs.Work.{not_held, of_edit, refused};
ghost use Rattle.atspi_trace_examples.specs.trace.Small.{apps, exporter, holder, holding, idle, readers, with_ends};
ghost use Rattle.atspi_trace_examples.specs.trace.Small.{world};

use atspi_tree_model::{Edit, EditFault};

/// A party that was not started is looked for first, and then one that stopped or left.
pub fn parties()
    ensures edit { (b : Bus) → refused (world b idle) (line.Edit 7 (Edit.Remove 0)) ≡ Some no_party }
    ensures stopped_edit { (b : Bus) → refused (world b idle) (line.Edit 2 (Edit.Remove 0)) ≡ Some dead }
    ensures swap { (b : Bus) → refused (world b idle) (line.Swap 7) ≡ Some no_party }
    ensures stopped_swap { (b : Bus) → refused (world b idle) (line.Swap 2) ≡ Some dead }
    ensures exit { (b : Bus) → refused (world b idle) (line.Exit 7) ≡ Some no_party }
    ensures stopped_exit { (b : Bus) → refused (world b idle) (line.Exit 2) ≡ Some dead }
    ensures leave { (b : Bus) → refused (world b idle) (line.Leave 2) ≡ Some no_party }
    ensures left { (b : Bus) → refused (world b idle) (line.Leave 1) ≡ Some dead }
    ensures bytes { (b : Bus) → refused (world b idle) (line.Bytes (party.App 7) true 9) ≡ Some no_party }
    ensures show_reader { (b : Bus) → refused (world b idle) (line.Show 2 0) ≡ Some no_party }
    ensures show_app { (b : Bus) → refused (world b idle) (line.Show 0 7) ≡ Some no_party }
{}

/// A call is refused for want of its reader, of its application, of a reader that is here, and of one that holds the
/// application.
pub fn calls()
    ensures reader { (b : Bus) → refused (world b idle) (line.Call 2 7 0 (SetCaret 1)) ≡ Some no_party }
    ensures app { (b : Bus) → refused (world b idle) (line.Call 1 7 0 (SetCaret 1)) ≡ Some no_party }
    ensures left { (b : Bus) → refused (world b idle) (line.Call 1 0 0 (SetCaret 1)) ≡ Some dead }
    ensures not_held { (b : Bus)
        → refused (world b (holder (holding 1 ∷ []))) (line.Call 0 0 0 (SetCaret 1)) ≡ Some not_held }
    ensures held { (b : Bus) → refused (world b (holder (holding 1 ∷ []))) (line.Call 0 1 0 (SetCaret 1)) ≡ None }
    ensures stopped_app { (b : Bus)
        → refused (world b (holder (holding 2 ∷ []))) (line.Call 0 2 0 (SetCaret 1)) ≡ None }
    ensures no_reader { call_refusal 0 (an_application exporter) ≡ None }
{}

/// An edit is refused as the application refuses it.
pub fn edits()
    ensures root { (b : Bus) → refused (world b idle) (line.Edit 0 (Edit.Remove 0)) ≡ Some (of_edit EditFault.IsRoot) }
    ensures name { (b : Bus) → refused (world b idle) (line.Edit 0 (Edit.Name 0 (codes "U"))) ≡ None }
    ensures no_node { (b : Bus)
        → refused (world b idle) (line.Edit 0 (Edit.Name 7 (codes "U"))) ≡ Some (of_edit EditFault.NoNode) }
    ensures no_app { edit_refusal (Edit.Remove 0) (a_reader idle) ≡ None }
{}

/// A script starts sixteen applications and four readers, and swaps sixteen times; it has its quota before the first
/// start.
pub fn limits()
    ensures apps { (b : Bus) → refused (with_ends b (apps 16)) (line.App (codes "T")) ≡ Some no_kit }
    ensures last_app { (b : Bus) → refused (with_ends b (apps 15)) (line.App (codes "T")) ≡ None }
    ensures long_name { (b : Bus) (name : List ℕ) → is_long_name name ≡ true
        → refused (with_ends b (apps 15)) (line.App name) ≡ Some (of_edit EditFault.TextFull) }
    ensures long_too { (b : Bus) (name : List ℕ) → is_long_name name ≡ true
        → refused (with_ends b (apps 16)) (line.App name) ≡ Some no_kit }
    ensures readers { (b : Bus) → refused (with_ends b (readers 4)) line.Reader ≡ Some no_reader }
    ensures last_reader { (b : Bus) → refused (with_ends b (readers 3)) line.Reader ≡ None }
    ensures swaps { (b : Bus) → refused (record (world b idle) { swaps = 16 }) (line.Swap 0) ≡ Some no_spare }
    ensures last_swap { (b : Bus) → refused (record (world b idle) { swaps = 15 }) (line.Swap 0) ≡ None }
    ensures late { (b : Bus) → refused (with_ends b (apps 1)) (line.Quota 1024) ≡ Some late }
    ensures quota { (b : Bus) → refused (with_ends b (apps 0)) (line.Quota 1024) ≡ None }
{}

/// What is refused of nobody: turns, a drain, a blank line; and what one that stopped is asked for still.
pub fn unrefused()
    ensures blank { (b : Bus) → refused (world b idle) line.Blank ≡ None }
    ensures turns { (b : Bus) → refused (world b idle) (line.Turns 5) ≡ None }
    ensures drain { (b : Bus) → refused (world b idle) line.Drain ≡ None }
    ensures exit { (b : Bus) → refused (world b idle) (line.Exit 1) ≡ None }
    ensures leave { (b : Bus) → refused (world b idle) (line.Leave 0) ≡ None }
    ensures stopped_bytes { (b : Bus) → refused (world b idle) (line.Bytes (party.App 2) true 9) ≡ None }
    ensures left_show { (b : Bus) → refused (world b idle) (line.Show 1 2) ≡ None }
{}
