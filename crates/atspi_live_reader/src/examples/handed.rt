//! What is handed over of what a reader did.

ghost use Rattle.std.specs.Prelude.{◌≡◌, ◌∷◌, ◌++◌, [], codes, false};
ghost use Rattle.atspi_message.specs.Envelope.{Envelope, envelope_of};
ghost use Rattle.atspi_message.specs.declared.message.Message.{Message};
ghost use Rattle.atspi_live_reader.specs.Handed.{HandsOver};
ghost use Rattle.atspi_live_reader.specs.Spoken.{say_line};
ghost use Rattle.atspi_live_reader.specs.declared.handed.Handed.TheVariants as handed;
ghost use Rattle.atspi_live_reader.specs.Cases.{name};
ghost use Rattle.atspi_protocol.specs.following.ReaderState.{Done, ReaderState, begins, sends, speaks, tells_end};

/// The oldest thing that it did is handed over: a message, or a line, which is kept behind the others, or an end; or
/// nothing is.
pub fn oldest_things()
    ensures message { (m : Message) (s : ReaderState) (d : Done)
        → HandsOver (handed.Message m) (record s { out = sends (envelope_of m) ∷ d ∷ [] }) (record s { out = d ∷ [] })
        false false (codes "a") (codes "a") }
    ensures line { (s : ReaderState) (d : Done)
        → HandsOver handed.Aside (record s { out = speaks name (codes "OK") ∷ d ∷ [] }) (record s { out = d ∷ [] })
        false false (codes "a") (codes "a" ++ say_line name (codes "OK")) }
    ensures end { (s : ReaderState)
        → HandsOver handed.Aside (record s { out = tells_end name ∷ [] }) (record s { out = [] }) false false
        (codes "a") (codes "a") }
    ensures nothing { (s : ReaderState) → HandsOver handed.Nothing s s false false (codes "a") (codes "a") }
    ensures other_message { (m : Message) (e : Envelope) → (envelope_of m ≡ e → ⊥)
        → HandsOver (handed.Message m) (record begins { out = sends e ∷ [] }) begins false false [] [] → ⊥ }
    ensures message_aside { (e : Envelope)
        → HandsOver handed.Aside (record begins { out = sends e ∷ [] }) begins false false [] [] → ⊥ }
    ensures end_as_nothing { HandsOver handed.Nothing (record begins { out = tells_end name ∷ [] }) begins false false
        [] [] → ⊥ }
    ensures line_lost { HandsOver handed.Aside (record begins { out = speaks name (codes "OK") ∷ [] }) begins false
        false [] [] → ⊥ }
    ensures end_kept { HandsOver handed.Aside (record begins { out = tells_end name ∷ [] }) begins false false []
        (codes "a") → ⊥ }
    ensures message_kept { (m : Message)
        → HandsOver (handed.Message m) (record begins { out = sends (envelope_of m) ∷ [] }) begins false false []
        (codes "a") → ⊥ }
    ensures nothing_kept { HandsOver handed.Nothing begins begins false false [] (codes "a") → ⊥ }
    ensures all_aside { HandsOver handed.Aside begins begins false false [] [] → ⊥ }
{}
