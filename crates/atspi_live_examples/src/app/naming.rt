//! Why a line is not done, and the line that tells it.

ghost use Rattle.std.specs.Prelude.{◌≡◌, ◌∷◌, ◌++◌, ℕ, [], List, None, Some, codes};
ghost use Rattle.atspi_app_known.specs.application.Faults.{of_end};
ghost use Rattle.atspi_app_known.specs.declared.application.fault.AppFault.TheVariants as app;
ghost use Rattle.atspi_script_lines.specs.declared.line.LineFault.TheVariants as faults;
ghost use Rattle.atspi_message.specs.Envelope.{Envelope};
ghost use Rattle.atspi_protocol.specs.declared.ends.fault.EndFault.TheVariants as ends;
ghost use Rattle.atspi_protocol.specs.exporting.Exporter.{Exporter};
ghost use Rattle.atspi_live_app.specs.Live.{IsMarked, IsStopped, IsUndone, SpentBy};
ghost use Rattle.atspi_live_app.specs.Names.{edit_fault_name, refused_name, refused_text};
ghost use Rattle.atspi_live_app.specs.Standing.{IsRefused, IsSpentAt, RefusedBy};
ghost use Rattle.atspi_live_app.specs.inner.Stops.{stop_of_line, stop_of_undone, undone_of};
ghost use Rattle.atspi_live_app.specs.declared.asking.Ask.{Ask};
ghost use Rattle.atspi_live_app.specs.declared.asking.Ask.TheVariants as asks;
ghost use Rattle.atspi_live_app.specs.declared.naming.Refused.TheVariants as refused;

use atspi_tree_model::EditFault;

/// The names of refusals, and the line of one.
pub fn names_of_refusals()
    ensures no_node { edit_fault_name EditFault.NoNode ≡ codes "NoNode" }
    ensures is_root { edit_fault_name EditFault.IsRoot ≡ codes "IsRoot" }
    ensures no_face { edit_fault_name EditFault.NoFace ≡ codes "NoFace" }
    ensures bad_index { edit_fault_name EditFault.BadIndex ≡ codes "BadIndex" }
    ensures bad_offset { edit_fault_name EditFault.BadOffset ≡ codes "BadOffset" }
    ensures cycle { edit_fault_name EditFault.Cycle ≡ codes "Cycle" }
    ensures full { edit_fault_name EditFault.Full ≡ codes "Full" }
    ensures text_full { edit_fault_name EditFault.TextFull ≡ codes "TextFull" }
    ensures long { refused_name refused.Long ≡ codes "Long" }
    ensures not_utf8 { refused_name refused.NotUtf8 ≡ codes "NotUtf8" }
    ensures form { refused_name refused.Form ≡ codes "Form" }
    ensures edit { refused_name (refused.Edit EditFault.Cycle) ≡ codes "Cycle" }
    ensures line { refused_text 12 refused.Form ≡ codes "refused 12 Form" ++ 10 ∷ [] }
{}

/// A line that asks for nothing, or for what is not done, stops the lines behind it under its own number and for its
/// own reason; where memory is wanting for it nothing is said.
pub fn reasons_to_stop()
    ensures long { (marks : List ℕ) (lines : List (List ℕ)) (took : List Envelope)
        → IsRefused (IsMarked marks) lines took 3 refused.Long
        → IsStopped (IsMarked marks) (stop_of_line faults.Long 3) lines took }
    ensures not_utf8 { (marks : List ℕ) (lines : List (List ℕ)) (took : List Envelope)
        → IsRefused (IsMarked marks) lines took 3 refused.NotUtf8
        → IsStopped (IsMarked marks) (stop_of_line faults.NotUtf8 3) lines took }
    ensures form { (marks : List ℕ) (lines : List (List ℕ)) (took : List Envelope)
        → IsRefused (IsMarked marks) lines took 3 refused.Form
        → IsStopped (IsMarked marks) (stop_of_line faults.Form 3) lines took }
    ensures no_form { (lines : List (List ℕ)) (took : List Envelope)
        → IsStopped (λ history more. ⊥) (stop_of_line faults.Form 3) lines took → ⊥ }
    ensures wanting { (lines : List (List ℕ)) (took : List Envelope)
        → IsStopped (λ history more. ⊥) (stop_of_line faults.NoMemory 3) lines took }
    ensures edit { (marks : List ℕ) (lines : List (List ℕ)) (took : List Envelope)
        → IsRefused (IsMarked marks) lines took 3 (refused.Edit EditFault.Cycle)
        → IsStopped (IsMarked marks) (stop_of_undone (undone_of (app.Refused EditFault.Cycle)) 3) lines took }
    ensures spent { (marks : List ℕ) (lines : List (List ℕ)) (took : List Envelope)
        → IsSpentAt (IsMarked marks) lines took
        → IsStopped (IsMarked marks) (stop_of_undone (undone_of app.Spent) 3) lines took }
    ensures not_spent { (lines : List (List ℕ)) (took : List Envelope)
        → IsStopped (λ history more. ⊥) (stop_of_undone (undone_of app.Spent) 3) lines took → ⊥ }
    ensures edit_wanting { (lines : List (List ℕ)) (took : List Envelope)
        → IsStopped (λ history more. ⊥) (stop_of_undone (undone_of app.NoMemory) 3) lines took }
{}

/// What each reason means that an application gives; and those that an end gives, as its own.
pub fn meanings_of_reasons()
    ensures refused { (s : Exporter) (what : Ask) → RefusedBy (Some s) what EditFault.Cycle
        → IsUndone (undone_of (app.Refused EditFault.Cycle)) (Some s) what }
    ensures not_refused { (s : Exporter) (what : Ask) → (RefusedBy (Some s) what EditFault.Cycle → ⊥)
        → IsUndone (undone_of (app.Refused EditFault.Cycle)) (Some s) what → ⊥ }
    ensures spent { (s : Exporter) (what : Ask) → SpentBy (Some s) what → IsUndone (undone_of app.Spent) (Some s) what }
    ensures not_spent { IsUndone (undone_of app.Spent) None asks.Nothing → ⊥ }
    ensures wanting { IsUndone (undone_of app.NoMemory) None asks.Nothing }
    ensures end_wanting { of_end ends.NoMemory ≡ app.NoMemory }
    ensures end_spent { of_end ends.Spent ≡ app.Spent }
{}
