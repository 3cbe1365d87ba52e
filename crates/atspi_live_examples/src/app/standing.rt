//! What lines and messages do to an application, before it has started and behind that.

ghost use Rattle.std.specs.Prelude.{◌≡◌, ◌∷◌, ◌++◌, ℕ, [], true, false, List, None, Some, codes};
ghost use Rattle.atspi_message.specs.Envelope.{Envelope};
ghost use Rattle.atspi_protocol.specs.exporting.Exporter.{Exporter, begins, deaf, hears, sends};
ghost use Rattle.atspi_protocol.specs.exporting.Taking.{app_takes, is_spent};
ghost use Rattle.atspi_live_app.specs.Asking.{IsWait};
ghost use Rattle.atspi_live_app.specs.Lines.{lines_of};
ghost use Rattle.atspi_live_app.specs.Live.{marks_in, queued_in};
ghost use Rattle.atspi_live_app.specs.Standing.{Comes, Does, HandedOut, IsEmpty, IsNumbered, IsSpent, MayNot};
ghost use Rattle.atspi_live_app.specs.Standing.{RefusedNext, does, lines_in, sent_in, taken_in, takes};
ghost use Rattle.atspi_live_app.specs.declared.asking.Ask.TheVariants as asks;
ghost use Rattle.atspi_live_app.specs.declared.naming.Refused.TheVariants as refused;

/// An empty line and a wait leave the application as it is; nothing but a start and an empty line may stand before it
/// has started, and it starts once.
pub fn deeds_of_lines()
    ensures empty { (s : Exporter) → Does (Some s) asks.Nothing (Some s) }
    ensures empty_first { Does None asks.Nothing None }
    ensures empty_starts { (s : Exporter) → Does None asks.Nothing (Some s) → ⊥ }
    ensures waits { (s : Exporter) → Does (Some s) (asks.Wait 2) (Some s) }
    ensures waits_first { Does None (asks.Wait 2) None → ⊥ }
    ensures edits_first { (edit : _) → Does None (asks.Edit edit) None → ⊥ }
    ensures starts_again { (s : Exporter) → Does (Some s) (asks.Start (codes "T")) (Some s) → ⊥ }
    ensures may_not_wait { MayNot None (asks.Wait 2) }
    ensures may_not_edit { (edit : _) → MayNot None (asks.Edit edit) }
    ensures may_start { MayNot None (asks.Start (codes "T")) → ⊥ }
    ensures may_not_start_again { (s : Exporter) → MayNot (Some s) (asks.Start (codes "T")) }
    ensures may_wait { (s : Exporter) → MayNot (Some s) (asks.Wait 2) → ⊥ }
    ensures may_rest { MayNot None asks.Nothing → ⊥ }
{}

/// A message comes to an application that has started, and to no other; where its own would pass the last number it is
/// spent.
pub fn messages_that_come()
    ensures none_there { (e : Envelope) → Comes None (takes e) None }
    ensures none_made { (e : Envelope) (s : Exporter) → Comes None (takes e) (Some s) → ⊥ }
    ensures takes { (e : Envelope) (s : Exporter) → Comes (Some s) (takes e) (Some (app_takes s e)) }
    ensures spent { (e : Envelope) (s : Exporter) → is_spent (app_takes s e) ≡ true → IsSpent (Some s) e }
    ensures not_spent { (e : Envelope) (s : Exporter) → is_spent (app_takes s e) ≡ false → IsSpent (Some s) e → ⊥ }
    ensures none_spent { (e : Envelope) → IsSpent None e → ⊥ }
    ensures none_numbered { IsNumbered None }
    ensures numbered { IsNumbered (Some (begins (codes "T"))) }
{}

/// Lines, messages taken and messages sent, each in order.
pub fn orders_of_events()
    ensures lines { (e : Envelope) (a b : List ℕ) → lines_in (does a ∷ takes e ∷ does b ∷ []) ≡ a ∷ b ∷ [] }
    ensures taken { (e f : Envelope) (a : List ℕ) → taken_in (takes e ∷ does a ∷ takes f ∷ []) ≡ e ∷ f ∷ [] }
    ensures marks { (e f : Envelope) (a b : List ℕ)
        → marks_in 0 (does a ∷ takes e ∷ takes f ∷ does b ∷ []) ≡ 0 ∷ 2 ∷ [] }
    ensures sent { (e f : Envelope) (a b : List ℕ)
        → sent_in (sends e ∷ hears a b ∷ deaf a b ∷ sends f ∷ []) ≡ e ∷ f ∷ [] }
    ensures handed { (e : Envelope) (s : Exporter)
        → HandedOut (e ∷ []) (Some (record s { out = [] })) (Some (record s { out = sends e ∷ [] })) }
    ensures handed_first { (e f : Envelope) (s : Exporter)
        → HandedOut (e ∷ []) (Some (record s { out = sends f ∷ [] }))
        (Some (record s { out = sends e ∷ sends f ∷ [] })) }
    ensures none_handed { HandedOut [] None None }
    ensures lost { (s : Exporter) → HandedOut [] None (Some s) → ⊥ }
    ensures queued { (e f : Envelope) (s : Exporter)
        → queued_in (Some (record s { out = sends e ∷ sends f ∷ [] })) ≡ 2 }
    ensures none_queued { queued_in None ≡ 0 }
    ensures empty { (s : Exporter) → IsEmpty (Some (record s { out = [] })) }
    ensures not_empty { (e : Envelope) (s : Exporter) → IsEmpty (Some (record s { out = sends e ∷ [] })) → ⊥ }
{}

/// A wait has a number of 32 bits. Each line ends at a line feed, and the last may lack it. Where no line is left, an
/// application was never asked for.
pub fn texts_of_lines()
    ensures most { IsWait 4294967295 (codes "wait 4294967295") }
    ensures too_many { IsWait 4294967296 (codes "wait 4294967296") → ⊥ }
    ensures lines { lines_of (codes "a" ++ 10 ∷ (10 ∷ codes "bc")) ≡ codes "a" ∷ [] ∷ codes "bc" ∷ [] }
    ensures feed { lines_of (codes "a" ++ 10 ∷ []) ≡ codes "a" ∷ [] }
    ensures none { lines_of [] ≡ [] }
    ensures never_asked { RefusedNext None [] refused.Form }
    ensures asked { (s : Exporter) → RefusedNext (Some s) [] refused.Form → ⊥ }
    ensures other { RefusedNext None [] refused.Long → ⊥ }
{}
