//! What an application has queued first, and what is handed over of it.

ghost use Rattle.std.specs.Prelude.{◌≡◌, ◌∷◌, ℕ, [], List};
ghost use Rattle.atspi_message.specs.Envelope.{Envelope, envelope_of};
ghost use Rattle.atspi_message.specs.declared.message.Message.{Message};
ghost use Rattle.atspi_protocol.specs.exporting.Exporter.{Exporter, Happening, deaf, hears, sends};
ghost use Rattle.atspi_live_app.specs.HandedOver.{HandsOver, IsHanded};
ghost use Rattle.atspi_live_app.specs.declared.next_message.Handed.TheVariants as handed;

/// What is queued first is a message, or something that goes to nobody on the link.
pub fn kinds_handed()
    ensures message { (m : Message) → IsHanded (handed.Message m) (sends (envelope_of m)) }
    ensures other_message { (m : Message) (e : Envelope) → (e ≡ envelope_of m → ⊥)
        → IsHanded (handed.Message m) (sends e) → ⊥ }
    ensures heard { (a b : List ℕ) → IsHanded handed.Aside (hears a b) }
    ensures message_aside { (e : Envelope) → IsHanded handed.Aside (sends e) → ⊥ }
    ensures nothing { (h : Happening) → IsHanded handed.Nothing h → ⊥ }
{}

/// A message that is handed over stood in front, but for what is no message; it is queued no longer, and so is what
/// stood before it.
pub fn queues_handed()
    ensures message { (m : Message) (h : Happening) (s : Exporter)
        → HandsOver (handed.Message m) (record s { out = sends (envelope_of m) ∷ h ∷ [] }) (record s { out = h ∷ [] }) }
    ensures behind { (m : Message) (a b : List ℕ) (s : Exporter)
        → HandsOver (handed.Message m) (record s { out = hears a b ∷ sends (envelope_of m) ∷ [] })
        (record s { out = [] }) }
    ensures message_kept { (m : Message) (s : Exporter) → HandsOver (handed.Message m) s s → ⊥ }
    ensures no_message { (m : Message) (a b : List ℕ) (s : Exporter)
        → HandsOver (handed.Message m) (record s { out = hears a b ∷ [] }) (record s { out = [] }) → ⊥ }
    ensures aside { (a b : List ℕ) (s : Exporter)
        → HandsOver handed.Aside (record s { out = deaf a b ∷ [] }) (record s { out = [] }) }
    ensures aside_kept { (s : Exporter) → HandsOver handed.Aside s s → ⊥ }
    ensures message_aside { (e : Envelope) (s : Exporter)
        → HandsOver handed.Aside (record s { out = sends e ∷ [] }) (record s { out = [] }) → ⊥ }
    ensures nothing { (s : Exporter) → HandsOver handed.Nothing s s }
    ensures message_lost { (e : Envelope) (s : Exporter)
        → HandsOver handed.Nothing (record s { out = sends e ∷ [] }) (record s { out = [] }) → ⊥ }
{}
