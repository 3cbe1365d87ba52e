//! What is handed over of what a reader did, and which bytes were written of it.

ghost use Rattle.std.specs.Prelude.{◌≡◌, ◌∷◌, ◌++◌, ℕ, List, [], None, Some, codes, true, false};
ghost use Rattle.atspi_message.specs.Envelope.{Envelope};
ghost use Rattle.atspi_reader.specs.Steps.{IsState};
ghost use Rattle.atspi_live_reader.specs.Handed.{Follows, IsFrontOf};
ghost use Rattle.atspi_live_reader.specs.inner.Handed.{GivesRest, HandsAll};
ghost use Rattle.atspi_live_reader.specs.Spoken.{following, say_line};
ghost use Rattle.atspi_live_examples.specs.reader.Held.{name, said, told};
ghost use Rattle.atspi_protocol.specs.following.ReaderState.{Done, ReaderState, begins, sends, speaks, tells_end};
ghost use Rattle.atspi_protocol.specs.following.Takes.{starts};

/// All things up to a message are handed over, with what stands before it; or all that it did. The lines among them are
/// kept behind the others.
pub fn all_things()
    ensures message { (e : Envelope) (s : ReaderState) (d : Done)
        → HandsAll (λ (x : Envelope). x) (Some e)
        (record s { out = tells_end name ∷ speaks name (codes "OK") ∷ sends e ∷ d ∷ [] })
        (record s { out = d ∷ [] }) false false [] (say_line name (codes "OK")) }
    ensures none { (s : ReaderState)
        → HandsAll (λ (x : Envelope). x) None (record s { out = told }) (record s { out = [] }) false false (codes "a")
        (codes "a" ++ said) }
    ensures seen { (e : Envelope)
        → HandsAll (λ (n : ℕ). record e { serial = n }) (Some 7)
        (record begins { out = sends (record e { serial = 7 }) ∷ [] }) begins false false [] [] }
    ensures none_there { (e : Envelope) → HandsAll (λ (x : Envelope). x) (Some e) begins begins false false [] [] → ⊥ }
    ensures one_there { (e : Envelope)
        → HandsAll (λ (x : Envelope). x) None (record begins { out = sends e ∷ [] }) begins false false [] [] → ⊥ }
    ensures line_lost { HandsAll (λ (x : Envelope). x) None (record begins { out = speaks name (codes "OK") ∷ [] })
        begins false false [] [] → ⊥ }
    ensures rest { GivesRest (record begins { out = told }) (record begins { out = [] }) false false (codes "a")
        (codes "a" ++ said) }
    ensures rest_untold { GivesRest (record begins { out = told }) (record begins { out = [] }) false false [] [] → ⊥ }
    ensures rest_kept { GivesRest (record begins { out = told }) (record begins { out = [] }) false false [] said }
    ensures rest_changed { GivesRest (record begins { out = told }) (record begins { out = []; next = 2 }) false false
        [] said → ⊥ }
    ensures starved { GivesRest (record begins { out = told }) (record begins { out = [] }) false true [] [] }
    ensures front { IsFrontOf (codes "a") (codes "ab") }
    ensures no_front { IsFrontOf (codes "b") (codes "ab") → ⊥ }
{}

/// What was written, with the lines that are to be, is all that the reader spoke; where memory was wanting for a line,
/// what was written is a front of that.
pub fn written_so_far()
    ensures before { (r : ReaderState) (took : List Envelope) (e : Envelope) (left : List Done) → IsState r
        → record r { out = speaks name (codes "OK") ∷ sends e ∷ left } ≡ following took
        → Follows (codes "say :1") (record r { out = left }) false (codes ".2 " ++ 34 ∷ (codes "OK" ++ 34 ∷ 10 ∷ []))
        took (e ∷ []) }
    ensures wanting { (r : ReaderState) (took : List Envelope) (left : List Done) → IsState r
        → record r { out = speaks name (codes "OK") ∷ left } ≡ following took
        → Follows (codes "say :1") (record r { out = left }) true (codes "x") took [] }
    ensures fed { (r : ReaderState) (took said : List Envelope) → Follows (codes "x") r false [] took said → ⊥ }
    ensures wanting_other { (r : ReaderState) (took said : List Envelope) → Follows (codes "x") r true [] took said
        → ⊥ }
    ensures lost { (r : ReaderState) (took said : List Envelope) → Follows [] r false (codes "say") took said → ⊥ }
    ensures unwritten { (r : ReaderState) (took : List Envelope)
        → record r { out = speaks name (codes "OK") ∷ [] } ≡ following took
        → Follows [] (record r { out = [] }) false [] took [] → ⊥ }
    ensures unasked { (e : Envelope) → Follows [] (starts begins) false [] [] (e ∷ []) → ⊥ }
    ensures not_started { Follows [] begins false [] [] [] → ⊥ }
    ensures no_state { (written lines : List ℕ) (r : ReaderState) (took said : List Envelope) → (IsState r → ⊥)
        → Follows written r true lines took said → ⊥ }
{}
