//! The bus between the ends: what it hands to each of them, and what is written of what it did.

ghost use Rattle.std.specs.Prelude.{◌≡◌, ◌∷◌, [], None, Some, false, true};
ghost use Rattle.atspi_script_lines.specs.declared.line.Party.TheVariants as party;
ghost use Rattle.atspi_match.specs.routing.Queues.{Bus};
ghost use Rattle.atspi_match.specs.routing.Steps.{closes, delivers, says};
ghost use Rattle.atspi_match.specs.declared.routing.closing.Why.TheVariants.{NotHello, Quota};
ghost use Rattle.atspi_trace.specs.Carrying.{Carried, all_told, bus_entries, dropped_if, grew, is_upto, letter_of};
ghost use Rattle.atspi_trace.specs.Carrying.{named, one_closed, own_letter, sent_by_bus, settled, with_letter};
ghost use Rattle.atspi_trace.specs.Ends.{plain, put_down};
ghost use Rattle.atspi_trace.specs.Entry.{dropped, sent};
ghost use Rattle.atspi_trace_examples.specs.trace.Small.{announcing, app, closing, ends, from_bus, idle, named_app};
ghost use Rattle.atspi_trace_examples.specs.trace.Small.{said, waiting};

/// What is handed on is the sender's message, with the tree and the step that it announces, or one of the bus's own,
/// which has none.
pub fn letters()
    ensures sender { letter_of (party.App 0) announcing said.message
        ≡ record { from = party.App 0; said = record announcing { message = said.message } } }
    ensures bus { letter_of (party.App 0) announcing (from_bus 5)
        ≡ record { from = party.Bus; said = plain (from_bus 5) } }
    ensures own { own_letter (from_bus 5) ≡ record { from = party.Bus; said = plain (from_bus 5) } }
{}

/// A delivery stands on the down link of its connection where the queue of that one took more bytes.
pub fn delivered()
    ensures more { grew 1 (waiting 1 (7 ∷ [])) (waiting 1 (7 ∷ 8 ∷ [])) ≡ true }
    ensures as_many { grew 1 (waiting 1 (7 ∷ [])) (waiting 1 (8 ∷ [])) ≡ false }
    ensures other { grew 0 (waiting 1 (7 ∷ [])) (waiting 1 (7 ∷ 8 ∷ [])) ≡ false }
    ensures room { with_letter own_letter (waiting 1 []) (waiting 1 (7 ∷ [])) (delivers 1 (from_bus 5))
        (app 0 ∷ app 1 ∷ []) ≡ app 0 ∷ put_down (own_letter (from_bus 5)) (app 1) ∷ [] }
    ensures no_room { with_letter own_letter (waiting 1 []) (waiting 1 []) (delivers 1 (from_bus 5))
        (app 0 ∷ app 1 ∷ []) ≡ app 0 ∷ app 1 ∷ [] }
    ensures said { with_letter own_letter (waiting 1 []) (waiting 1 (7 ∷ [])) (says (from_bus 5)) (app 0 ∷ app 1 ∷ [])
        ≡ app 0 ∷ app 1 ∷ [] }
    ensures closed { with_letter own_letter (waiting 1 []) (waiting 1 (7 ∷ [])) (closes 1) (app 0 ∷ app 1 ∷ [])
        ≡ app 0 ∷ app 1 ∷ [] }
{}

/// The bus's own messages are written in their order, and behind those before a closing that an end was dropped.
pub fn written()
    ensures quota { dropped_if (party.App 0) (Quota 60 70) ≡ dropped (party.App 0) 60 70 ∷ [] }
    ensures no_hello { dropped_if (party.App 0) NotHello ≡ [] }
    ensures before { is_upto 6 (from_bus 5) ≡ true }
    ensures last { is_upto 5 (from_bus 5) ≡ true }
    ensures behind { is_upto 4 (from_bus 5) ≡ false }
    ensures own { sent_by_bus (from_bus 5 ∷ from_bus 6 ∷ [])
        ≡ sent party.Bus (from_bus 5) ∷ sent party.Bus (from_bus 6) ∷ [] }
    ensures no_closing { bus_entries (ends idle) (from_bus 5 ∷ from_bus 6 ∷ []) []
        ≡ sent party.Bus (from_bus 5) ∷ sent party.Bus (from_bus 6) ∷ [] }
    ensures one { bus_entries (ends idle) (from_bus 5 ∷ from_bus 6 ∷ from_bus 7 ∷ []) (closing 4 (Quota 60 70) 6 ∷ [])
        ≡ sent party.Bus (from_bus 5) ∷ sent party.Bus (from_bus 6) ∷ dropped (party.Reader 0) 60 70
        ∷ sent party.Bus (from_bus 7) ∷ [] }
    ensures first { bus_entries (ends idle) (from_bus 5 ∷ []) (closing 4 (Quota 60 70) 0 ∷ [])
        ≡ dropped (party.Reader 0) 60 70 ∷ sent party.Bus (from_bus 5) ∷ [] }
    ensures two { bus_entries (ends idle) (from_bus 5 ∷ from_bus 6 ∷ from_bus 7 ∷ [])
        (closing 4 NotHello 5 ∷ closing 1 (Quota 60 70) 6 ∷ [])
        ≡ sent party.Bus (from_bus 5) ∷ sent party.Bus (from_bus 6) ∷ dropped (party.App 0) 60 70
        ∷ sent party.Bus (from_bus 7) ∷ [] }
    ensures registry { bus_entries (ends idle) (from_bus 5 ∷ from_bus 6 ∷ [])
        (closing 0 (Quota 60 70) 5 ∷ closing 1 (Quota 60 70) 6 ∷ [])
        ≡ sent party.Bus (from_bus 5) ∷ dropped party.Registry 60 70 ∷ [] }
{}

/// Where nobody is to be closed all stays, and what is written is not told again; an end keeps its name.
pub fn settled_bus()
    ensures nobody { (c : Carried) → one_closed c [] ≡ c }
    ensures no_round { (c : Carried) → settled 0 c ≡ c }
    ensures told { (b : Bus)
        → all_told (record b { own = from_bus 5 ∷ []; closings = closing 1 NotHello 5 ∷ [] })
        ≡ record b { own = []; closings = [] } }
    ensures name { (b : Bus) → named b 1 named_app ≡ named_app }
{}
