//! What an application hands over of what it has queued.

ghost use Rattle.std.specs.Prelude.{◌≡◌, ◌∷◌, ℕ, [], List, None, Some};
ghost use Rattle.atspi_message.specs.Envelope.{Envelope};
ghost use Rattle.atspi_protocol.specs.exporting.Exporter.{Exporter, hears, sends};
ghost use Rattle.atspi_live_app.specs.Live.{IsKept, seen};
ghost use Rattle.atspi_live_app.specs.inner.Live.{Hands, IsStarted};

/// A message that is handed over stood in front, but for what is no message; or there was none.
pub fn queues_handed()
    ensures hands { (e : Envelope) (s : Exporter)
        → Hands (λ (x : Envelope). x) (Some e) (Some (record s { out = sends e ∷ [] })) (Some (record s { out = [] })) }
    ensures hands_none { (e : Envelope) (s : Exporter)
        → Hands (λ (x : Envelope). x) None (Some (record s { out = sends e ∷ [] })) (Some (record s { out = [] })) → ⊥ }
    ensures hands_rest { (a b : List ℕ) (s : Exporter)
        → Hands (λ (x : Envelope). x) None (Some (record s { out = hears a b ∷ [] })) (Some (record s { out = [] })) }
{}

/// Until it has started there is what it is to be made with; then it is an application.
pub fn applications_kept()
    ensures kit { IsKept (λ (a : ℕ). a ≡ 1) (λ (k : ℕ). k ≡ 2) None (Some 2) }
    ensures other_kit { IsKept (λ (a : ℕ). a ≡ 1) (λ (k : ℕ). k ≡ 2) None (Some 1) → ⊥ }
    ensures no_kit { IsKept (λ (a : ℕ). a ≡ 1) (λ (k : ℕ). k ≡ 2) None None → ⊥ }
    ensures app { IsKept (λ (a : ℕ). a ≡ 1) (λ (k : ℕ). k ≡ 2) (Some 1) None }
    ensures other_app { IsKept (λ (a : ℕ). a ≡ 1) (λ (k : ℕ). k ≡ 2) (Some 2) (Some 2) → ⊥ }
    ensures not_started { IsStarted (λ (a : ℕ). a ≡ 1) None }
    ensures started { IsStarted (λ (a : ℕ). a ≡ 1) (Some 1) }
    ensures other_started { IsStarted (λ (a : ℕ). a ≡ 1) (Some 2) → ⊥ }
    ensures seen_not { seen (λ (s : Exporter). s) None ≡ None }
    ensures seen_so { (s : Exporter)
        → seen (λ (x : Exporter). record x { next = 7 }) (Some s) ≡ Some (record s { next = 7 }) }
{}
