//! What an application is when a line was done or a message taken, and why a line is not done.

ghost use Rattle.std.specs.Prelude.{◌≡◌, ◌<◌, ◌≤◌, ◌∷◌, ℕ, [], true, false, List, None, Option, Some, Ok, Err, codes};
ghost use Rattle.std.specs.Prelude.{length};
ghost use Rattle.atspi_tree_model.specs.Row.{IsName};
ghost use Rattle.atspi_script_lines.specs.declared.limits.TheConstants.{LINE_LIMIT};
ghost use Rattle.atspi_message.specs.Envelope.{Envelope};
ghost use Rattle.atspi_protocol.specs.exporting.Exporter.{Exporter, begins};
ghost use Rattle.atspi_protocol.specs.exporting.Starting.{starts};
ghost use Rattle.atspi_protocol.specs.exporting.Taking.{app_edits, app_takes, is_spent};
ghost use Rattle.atspi_app_known.specs.application.Seen.{IsSpentAfter};
ghost use Rattle.atspi_live_app.specs.Asking.{IsAsk};
ghost use Rattle.atspi_live_app.specs.Live.{IsMarked, SpentBy};
ghost use Rattle.atspi_live_app.specs.inner.Live.{IsLawful};
ghost use Rattle.atspi_live_app.specs.Standing.{Comes, Does, IsRefused, IsSpentAt, Makes, RefusedAs, RefusedBy, does};
ghost use Rattle.atspi_live_app.specs.Standing.{taken_in, takes};
ghost use Rattle.atspi_live_app.specs.declared.asking.Ask.{Ask};
ghost use Rattle.atspi_live_app.specs.declared.asking.Ask.TheVariants as asks;
ghost use Rattle.atspi_live_app.specs.declared.naming.Refused.{Refused};
ghost use Rattle.atspi_live_app.specs.declared.naming.Refused.TheVariants as refused;
ghost use Rattle.atspi_live_examples.specs.app.Lines.{named};

use atspi_tree_model::{Edit, EditFault};

/// An edit makes of an application what it is after its steps, and where it is refused nothing. A start calls the bus;
/// its name is not too long.
pub fn edits_done()
    ensures same { Does (Some (begins (codes "T"))) (asks.Edit (Edit.Name 0 (codes "T"))) (Some (begins (codes "T"))) }
    ensures edited { (s t : Exporter) (edit : _) → app_edits s edit ≡ Ok t → Does (Some s) (asks.Edit edit) (Some t) }
    ensures other { (s t u : Exporter) (edit : _) → app_edits s edit ≡ Ok t → (u ≡ t → ⊥)
        → Does (Some s) (asks.Edit edit) (Some u) → ⊥ }
    ensures refused { (s : Exporter) (t : Option Exporter) (edit : _) (why : _) → app_edits s edit ≡ Err why
        → Does (Some s) (asks.Edit edit) t → ⊥ }
    ensures gone { (s : Exporter) (edit : _) → Does (Some s) (asks.Edit edit) None → ⊥ }
    ensures starts { Does None (asks.Start (codes "T")) (Some (starts (begins (codes "T")))) }
    ensures not_called { Does None (asks.Start (codes "T")) (Some (begins (codes "T"))) → ⊥ }
    ensures long_name { (name : List ℕ) (t : Option Exporter) → (IsName name → ⊥) → Does None (asks.Start name) t → ⊥ }
    ensures waits_gone { (s : Exporter) → Does (Some s) (asks.Wait 2) None → ⊥ }
    ensures waits_called { Does (Some (begins (codes "T"))) (asks.Wait 2) (Some (starts (begins (codes "T")))) → ⊥ }
{}

/// That a line was done means that what it asks for was; and one event comes behind the other.
pub fn events_that_come()
    ensures blank { Comes None (does []) None }
    ensures comment { (s : Exporter) → Comes (Some s) (does (codes "# x")) (Some s) }
    ensures start { Comes None (does named) (Some (starts (begins (codes "T")))) }
    ensures wait_first { Comes None (does (codes "wait 2")) None → ⊥ }
    ensures other { (s t : Exporter) (e : Envelope) → (t ≡ app_takes s e → ⊥) → Comes (Some s) (takes e) (Some t) → ⊥ }
    ensures none { (s : Exporter) → Makes (Some s) [] (Some s) }
    ensures none_made { (s : Exporter) → Makes None [] (Some s) → ⊥ }
    ensures two { (s : Exporter) (e f : Envelope)
        → Makes (Some s) (takes e ∷ takes f ∷ []) (Some (app_takes (app_takes s e) f)) }
    ensures start_then { (e : Envelope)
        → Makes None (does named ∷ takes e ∷ []) (Some (app_takes (starts (begins (codes "T"))) e)) }
    ensures start_later { (e : Envelope) → Makes None (takes e ∷ does named ∷ []) (Some (starts (begins (codes "T")))) }
{}

/// A start is refused whose name is too long, and an edit as the tree refuses it; an edit that is asked for is lawful,
/// and is spent where it is not refused and its messages would pass the last number.
pub fn refusals()
    ensures long_name { (name : List ℕ) → (IsName name → ⊥) → RefusedBy None (asks.Start name) EditFault.TextFull }
    ensures long_name_other { (name : List ℕ) → RefusedBy None (asks.Start name) EditFault.Full → ⊥ }
    ensures short_name { RefusedBy None (asks.Start (codes "T")) EditFault.TextFull → ⊥ }
    ensures root { RefusedBy (Some (begins (codes "T"))) (asks.Edit (Edit.Remove 0)) EditFault.IsRoot }
    ensures root_other { RefusedBy (Some (begins (codes "T"))) (asks.Edit (Edit.Remove 0)) EditFault.NoNode → ⊥ }
    ensures wait { (s : Option Exporter) (why : _) → RefusedBy s (asks.Wait 2) why → ⊥ }
    ensures started { (s : Exporter) (name : List ℕ) (why : _) → RefusedBy (Some s) (asks.Start name) why → ⊥ }
    ensures lawful { IsLawful (asks.Edit (Edit.State 0 43 true)) }
    ensures unlawful { IsLawful (asks.Edit (Edit.State 0 44 true)) → ⊥ }
    ensures other_lawful { IsLawful (asks.Wait 2) }
    ensures spent { (s t : Exporter) (edit : _) → app_edits s edit ≡ Ok t → is_spent t ≡ true
        → SpentBy (Some s) (asks.Edit edit) }
    ensures not_spent { SpentBy (Some (begins (codes "T"))) (asks.Edit (Edit.Name 0 (codes "T"))) → ⊥ }
    ensures wait_spent { (s : Exporter) → SpentBy (Some s) (asks.Wait 2) → ⊥ }
    ensures none_spent { (edit : _) → SpentBy None (asks.Edit edit) → ⊥ }
{}

/// A line is refused for its length, then for its bytes, then since it asks for nothing that there is or that may stand
/// there; or for its edit's fault. It is counted from 1.
pub fn lines_refused()
    ensures long { (s : Option Exporter) (line : List ℕ) → (length line ≤ LINE_LIMIT → ⊥)
        → RefusedAs s line refused.Long }
    ensures short { (s : Option Exporter) → RefusedAs s [] refused.Long → ⊥ }
    ensures utf8 { (s : Option Exporter) → RefusedAs s [] refused.NotUtf8 → ⊥ }
    ensures none { (s : Option Exporter) (line : List ℕ) → ((what : Ask) → IsAsk what line → ⊥)
        → RefusedAs s line refused.Form }
    ensures wait_first { RefusedAs None (codes "wait 2") refused.Form }
    ensures start_again { (s : Exporter) → RefusedAs (Some s) named refused.Form }
    ensures edit { (s : Exporter) (line : List ℕ) (edit : _) (why : _) → IsAsk (asks.Edit edit) line
        → app_edits s edit ≡ Err why → RefusedAs (Some s) line (refused.Edit why) }
    ensures edit_first { RefusedAs None (codes "focus 5") (refused.Edit EditFault.NoNode) → ⊥ }
    ensures first { (left : List (List ℕ))
        → IsRefused (λ history more. history ≡ []) (codes "wait 2" ∷ left) [] 1 refused.Form }
    ensures second { (left : List (List ℕ)) (e : Envelope)
        → IsRefused (λ history more. more ≡ codes "wait 2" ∷ left) ([] ∷ codes "wait 2" ∷ left) (e ∷ []) 2
        refused.Form }
    ensures again { (left : List (List ℕ)) (e : Envelope)
        → IsRefused (λ history more. more ≡ named ∷ left) (named ∷ named ∷ left) (e ∷ []) 2 refused.Form }
    ensures zeroth { (marks : List ℕ) (lines : List (List ℕ)) (took : List Envelope) (why : Refused)
        → IsRefused (IsMarked marks) lines took 0 why → ⊥ }
    ensures no_order { (lines : List (List ℕ)) (took : List Envelope) (why : Refused)
        → IsRefused (λ history more. ⊥) lines took 1 why → ⊥ }
    ensures no_line { (took : List Envelope) (number : ℕ)
        → IsRefused (λ history more. more ≡ named ∷ []) [] took number refused.Form → ⊥ }
    ensures other_took { (e : Envelope) (lines : List (List ℕ)) (why : Refused)
        → IsRefused (λ history more. history ≡ []) lines (e ∷ []) 1 why → ⊥ }
{}

/// The numbers are spent at a line whose edit is behind the lines before it and the messages that were taken, in an
/// order that is so for it and the lines behind it.
pub fn lines_spent()
    ensures spent { (line : List ℕ) (left : List (List ℕ)) (edit : _) (e : Envelope) → IsAsk (asks.Edit edit) line
        → is_spent (app_takes (starts (begins (codes "T"))) e) ≡ false
        → IsSpentAfter (app_edits (app_takes (starts (begins (codes "T"))) e) edit)
        → IsSpentAt (λ history more. (history ≡ does named ∷ takes e ∷ []) × (more ≡ line ∷ left)) (named ∷ line ∷ left)
        (e ∷ []) }
    ensures no_line { (marks : List ℕ) (took : List Envelope) → IsSpentAt (IsMarked marks) [] took → ⊥ }
    ensures no_order { (lines : List (List ℕ)) (took : List Envelope) → IsSpentAt (λ history more. ⊥) lines took → ⊥ }
    ensures not_left { (lines : List (List ℕ)) (took : List Envelope) → IsSpentAt (λ history more. more ≡ []) lines took
        → ⊥ }
    ensures other_took { (e : Envelope) (lines : List (List ℕ))
        → IsSpentAt (λ history more. taken_in history ≡ []) lines (e ∷ []) → ⊥ }
    ensures not_started { (lines : List (List ℕ)) (took : List Envelope)
        → IsSpentAt (λ history more. history ≡ []) lines took → ⊥ }
    ensures no_edit { (line : List ℕ) (left lines : List (List ℕ)) (took : List Envelope) → LINE_LIMIT < length line
        → IsSpentAt (λ history more. more ≡ line ∷ left) lines took → ⊥ }
    ensures within { (marks : List ℕ) (lines : List (List ℕ)) (took : List Envelope)
        (s : IsSpentAt (IsMarked marks) lines took) → is_spent s.whole ≡ false }
    ensures passes { (marks : List ℕ) (lines : List (List ℕ)) (took : List Envelope)
        (s : IsSpentAt (IsMarked marks) lines took) → IsSpentAfter (app_edits s.whole s.edit) }
{}
