//! Queues, their quota, and the closings that it brings.

ghost use Rattle.std.specs.Prelude.{◌≡◌, ◌∷◌, ℕ, List, [], None, Some, codes, length};
ghost use Rattle.atspi_message.specs.Bytes.{written};
ghost use Rattle.atspi_match.specs.routing.OwnMessages.{return_to};
ghost use Rattle.atspi_match.specs.routing.Queues.{Waiting, queue_of, queued, doomed, empty_bus, joins, takes, leaves};
ghost use Rattle.atspi_match.specs.routing.Queues.{popped, settled};
ghost use Rattle.atspi_match.specs.routing.Room.{room, zero_, one_text, one_waits, due_bus, signal_m};

use crate::routing::Why;

/// A queue takes what fits its quota, and no more; nothing goes to one that is to be closed.
pub fn quota()
    ensures fits { queue_of (queued 3 one_waits 1 (8 ∷ (9 ∷ []))).queues 1 ≡ 7 ∷ (8 ∷ (9 ∷ [])) }
    ensures fits_still { (queued 3 one_waits 1 (8 ∷ (9 ∷ []))).due ≡ [] }
    ensures passes { queue_of (queued 2 one_waits 1 (8 ∷ (9 ∷ []))).queues 1 ≡ 7 ∷ [] }
    ensures closes { (queued 2 one_waits 1 (8 ∷ (9 ∷ []))).due ≡ (1, Why.Quota 1 2) ∷ [] }
    ensures due { queue_of (queued 9 (record one_waits { due = (1, Why.Quota 1 2) ∷ [] }) 1 (8 ∷ [])).queues 1
        ≡ 7 ∷ [] }
    ensures other { queue_of (queued 9 one_waits 2 (8 ∷ [])).queues 1 ≡ 7 ∷ [] }
    ensures once { (doomed (record one_waits { due = (1, Why.Quota 1 2) ∷ [] }) 1 Why.NotHello).due
        ≡ (1, Why.Quota 1 2) ∷ [] }
{}

/// A message counts with its length, also where that is more than the wire allows: one of 134,217,728 bytes goes where
/// the quota has room for it, and one byte more closes the receiver. Of its length 4,294,967,295 bytes are told at
/// most.
pub fn long_messages()
    ensures fits { (bytes : List ℕ) → length bytes ≡ 134217728
        → queue_of (queued 134217729 one_waits 1 bytes).queues 1 ≡ 7 ∷ bytes }
    ensures fits_still { (bytes : List ℕ) → length bytes ≡ 134217728 → (queued 134217729 one_waits 1 bytes).due ≡ [] }
    ensures one_more { (bytes : List ℕ) → length bytes ≡ 134217729
        → (queued 134217729 one_waits 1 bytes).due ≡ (1, Why.Quota 1 134217729) ∷ [] }
    ensures small_quota { (bytes : List ℕ) → length bytes ≡ 134217729
        → (queued 16777216 one_waits 1 bytes).due ≡ (1, Why.Quota 1 134217729) ∷ [] }
    ensures nothing_goes { (bytes : List ℕ) → length bytes ≡ 134217729
        → queue_of (queued 16777216 one_waits 1 bytes).queues 1 ≡ 7 ∷ [] }
    ensures last_told { (bytes : List ℕ) → length bytes ≡ 4294967295
        → (queued 16777216 one_waits 1 bytes).due ≡ (1, Why.Quota 1 4294967295) ∷ [] }
    ensures no_more_told { (bytes : List ℕ) → length bytes ≡ 5000000000
        → (queued 16777216 one_waits 1 bytes).due ≡ (1, Why.Quota 1 4294967295) ∷ [] }
{}

/// The return of Hello to `:1.0` has 89 bytes.
#[tactic(auto, unfolding(atspi_message::specs::Bytes::spelled_with, atspi_message::specs::Bytes::header_bytes, atspi_message::specs::Bytes::body_bytes, atspi_message::specs::Bytes::body_place, atspi_message::specs::Bytes::rising_fields))]
pub fn bytes_of_hello()
    ensures returned { length (written (record (return_to (Some zero_) 5 (one_text zero_)) { serial = 1 })) ≡ 89 }
{}

/// Those that are to be closed are closed in the order of the causes, each once; the bus's last message before is told
/// with each.
pub fn closings()
    ensures in_order { (settled 2 (due_bus ((1, Why.Quota 5 6) ∷ ((0, Why.NotHello) ∷ [])))).closings
        ≡ record { conn = 1; why = Why.Quota 5 6; after = 0 }
        ∷ (record { conn = 0; why = Why.NotHello; after = 0 } ∷ []) }
    ensures gone { (settled 2 (due_bus ((1, Why.Quota 5 6) ∷ ((0, Why.NotHello) ∷ [])))).state.joined ≡ [] }
    ensures nothing_due { (settled 2 (due_bus ((1, Why.Quota 5 6) ∷ ((0, Why.NotHello) ∷ [])))).waiting.due ≡ [] }
    ensures others_stay { (settled 2 (due_bus ((1, Why.Quota 5 6) ∷ []))).state.joined ≡ 0 ∷ [] }
    ensures after { (settled 4 (record (due_bus ((3, Why.NotHello) ∷ [])) { state = room })).closings
        ≡ record { conn = 3; why = Why.NotHello; after = 9 } ∷ [] }
    ensures queue_goes { queue_of (settled 2 (due_bus ((1, Why.Quota 5 6) ∷ []))).waiting.queues 1 ≡ [] }
    ensures queue_stays { queue_of (settled 2 (due_bus ((1, Why.Quota 5 6) ∷ []))).waiting.queues 0 ≡ 8 ∷ [] }
{}

/// What a reader takes of a queue is the front of it.
pub fn popping()
    ensures rest { queue_of (popped (due_bus []) 1 (7 ∷ [])).waiting.queues 1 ≡ 7 ∷ [] }
    ensures other { queue_of (popped (due_bus []) 1 []).waiting.queues 0 ≡ 8 ∷ [] }
    ensures joined { queue_of (joins (due_bus []) 2).waiting.queues 2 ≡ [] }
    ensures joins { (joins (due_bus []) 2).state.joined ≡ 0 ∷ (1 ∷ (2 ∷ [])) }
{}

/// One whose first message is no Hello is closed, and nobody is told.
pub fn no_hello()
    ensures closed { (takes (joins (empty_bus 258) 0) 0 signal_m None).closings
        ≡ record { conn = 0; why = Why.NotHello; after = 0 } ∷ [] }
    ensures own { (takes (joins (empty_bus 258) 0) 0 signal_m None).own ≡ [] }
    ensures left { (leaves (joins (empty_bus 258) 0) 0).closings ≡ [] }
{}
