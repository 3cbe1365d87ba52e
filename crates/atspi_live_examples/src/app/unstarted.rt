//! An application that has not started: where it stands, and when a line is in turn.

ghost use Rattle.std.specs.Prelude.{◌≡◌, ◌<◌, ◌∷◌, ℕ, [], List, None, Some, codes, length};
ghost use Rattle.atspi_app_known.specs.declared.application.fault.AppFault.TheVariants as app;
ghost use Rattle.atspi_script_lines.specs.declared.line.LineFault.TheVariants as faults;
ghost use Rattle.atspi_live_host.specs.declared.call.Call.{Call};
ghost use Rattle.atspi_live_host.specs.declared.call.Did.{Did};
ghost use Rattle.atspi_message.specs.Envelope.{Envelope};
ghost use Rattle.atspi_protocol.specs.exporting.Exporter.{begins};
ghost use Rattle.atspi_live_app.specs.Live.{Stands, StandsAt};
ghost use Rattle.atspi_live_app.specs.inner.Live.{aside_of};
ghost use Rattle.atspi_live_app.specs.Overs.{StopsBy, StopsSo};
ghost use Rattle.atspi_live_app.specs.inner.Stops.{stop_of_line, stop_of_undone, undone_of};
ghost use Rattle.atspi_live_app.specs.Turns.{AreWhole, InTurn, IsBefore, IsInTurn};
ghost use Rattle.atspi_live_app.specs.declared.input.TheConstants.{INPUT_LIMIT};
ghost use Rattle.atspi_live_examples.specs.app.Lines.{granted};

use atspi_live_host::{Call, Did};

/// It tells where its next line begins, behind how many messages each line was done, and its text.
pub fn standing_told()
    ensures told { aside_of 3 (1 ∷ 2 ∷ []) (codes "x") ≡ 3 ∷ 2 ∷ 1 ∷ 2 ∷ codes "x" }
    ensures stands { StandsAt (λ (a : ℕ). a ≡ 1) (λ (a : ℕ). begins (codes "T")) (λ (k : ℕ). k ≡ 2) (0 ∷ 0 ∷ codes "x")
        None (Some 2) (codes "x") 0 0 [] [] }
    ensures took { (e : Envelope)
        → StandsAt (λ (a : ℕ). a ≡ 1) (λ (a : ℕ). begins (codes "T")) (λ (k : ℕ). k ≡ 2) (0 ∷ 0 ∷ codes "x") None
        (Some 2) (codes "x") 0 0 (e ∷ []) [] }
    ensures longest { (text : List ℕ) → length text ≡ INPUT_LIMIT
        → Stands (λ (a : ℕ). a ≡ 1) (λ (a : ℕ). begins (codes "T")) (λ (k : ℕ). k ≡ 2) text [] None (Some 2) text 0 0 []
        [] }
    ensures too_long { (text : List ℕ) → INPUT_LIMIT < length text
        → Stands (λ (a : ℕ). a ≡ 1) (λ (a : ℕ). begins (codes "T")) (λ (k : ℕ). k ≡ 2) text [] None (Some 2) text 0 0 []
        [] → ⊥ }
    ensures nothing_told { StandsAt (λ (a : ℕ). a ≡ 1) (λ (a : ℕ). begins (codes "T")) (λ (k : ℕ). k ≡ 2) [] None
        (Some 2) [] 0 0 [] [] → ⊥ }
    ensures place_told { StandsAt (λ (a : ℕ). a ≡ 1) (λ (a : ℕ). begins (codes "T")) (λ (k : ℕ). k ≡ 2) (0 ∷ []) None
        (Some 2) [] 0 0 [] [] → ⊥ }
    ensures other_place { StandsAt (λ (a : ℕ). a ≡ 1) (λ (a : ℕ). begins (codes "T")) (λ (k : ℕ). k ≡ 2)
        (1 ∷ 0 ∷ codes "x") None (Some 2) (codes "x") 0 0 [] [] → ⊥ }
    ensures other_kit { StandsAt (λ (a : ℕ). a ≡ 1) (λ (a : ℕ). begins (codes "T")) (λ (k : ℕ). k ≡ 2)
        (0 ∷ 0 ∷ codes "x") None (Some 1) (codes "x") 0 0 [] [] → ⊥ }
    ensures other_text { StandsAt (λ (a : ℕ). a ≡ 1) (λ (a : ℕ). begins (codes "T")) (λ (k : ℕ). k ≡ 2)
        (0 ∷ 0 ∷ codes "x") None (Some 2) [] 0 0 [] [] → ⊥ }
    ensures other_said { (e : Envelope)
        → StandsAt (λ (a : ℕ). a ≡ 1) (λ (a : ℕ). begins (codes "T")) (λ (k : ℕ). k ≡ 2) (0 ∷ 0 ∷ codes "x") None
        (Some 2) (codes "x") 0 0 [] (e ∷ []) → ⊥ }
    ensures other_number { StandsAt (λ (a : ℕ). a ≡ 1) (λ (a : ℕ). begins (codes "T")) (λ (k : ℕ). k ≡ 2) (0 ∷ 0 ∷ [])
        None (Some 2) [] 0 1 [] [] → ⊥ }
{}

/// A line is in turn before the read behind those that the lines before it take, with just the messages that are whole
/// by then.
pub fn turns_told()
    ensures none_whole { AreWhole [] [] }
    ensures lines_alone { AreWhole [] granted }
    ensures not_one_whole { (e : Envelope) → AreWhole (e ∷ []) [] → ⊥ }
    ensures first { IsBefore ([] ∷ []) [] }
    ensures no_read { IsBefore [] [] → ⊥ }
    ensures not_due { (line : List ℕ) → IsInTurn [] [] (line ∷ []) }
    ensures due { (line : List ℕ) → IsInTurn ([] ∷ []) [] (line ∷ []) → ⊥ }
    ensures none_left { IsInTurn ([] ∷ []) [] [] }
    ensures untold { (line : List ℕ) → InTurn 0 None [] (line ∷ []) }
    ensures told { (line : List ℕ) → InTurn 1 (Some (Call.Read 0 [] Did.NotYet ∷ [])) [] (line ∷ []) }
    ensures told_due { (line : List ℕ) → InTurn 0 (Some (Call.Read 0 [] Did.NotYet ∷ [])) [] (line ∷ []) → ⊥ }
{}

/// A run is stopped where nothing of what was taken is at fault and no read found the end.
pub fn runs_stopped()
    ensures stopped { StopsSo (IsInTurn []) (codes "wait 2" ∷ []) (stop_of_line faults.Form 1) 0 (Some []) }
    ensures lines_alone { StopsBy (λ history left. ⊥) [] (stop_of_line faults.NoMemory 1) granted }
    ensures untold { StopsSo (λ history left. ⊥) [] (stop_of_undone (undone_of app.Spent) 1) 0 None }
    ensures found_end { (lines : List (List ℕ))
        → StopsSo (IsInTurn []) lines (stop_of_line faults.NoMemory 1) 0 (Some (Call.Read 0 [] Did.End ∷ [])) → ⊥ }
    ensures other_link { StopsSo (IsInTurn []) [] (stop_of_line faults.NoMemory 1) 0
        (Some (Call.Read 1 (codes "x") Did.End ∷ [])) }
    ensures other_number { StopsBy (λ history left. history ≡ []) (codes "wait 2" ∷ []) (stop_of_line faults.Form 2) []
        → ⊥ }
{}
