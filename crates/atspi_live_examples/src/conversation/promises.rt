//! What the steps of a conversation promise of an end, whatever it did before; the end of these cases is the list of
//! what it took and of what it handed out.

ghost use Rattle.std.specs.Prelude.{◌≡◌, ◌∷◌, ◌++◌, ◌+◌, ℕ, List, [], None, Some, true, false, codes, length};
ghost use Rattle.atspi_message.specs.Bytes.{IsMessage, written};
ghost use Rattle.atspi_message.specs.Envelope.{Envelope};
ghost use Rattle.atspi_stream.specs.Stream.{HasFault};
ghost use Rattle.atspi_live_conversation.specs.Sent.{AllMeet, Fits};
ghost use Rattle.atspi_live_conversation.specs.Talking.{Attends, AttendsAll, AttendsToSpent, EndsIn, HandsOut, HasNone};
ghost use Rattle.atspi_live_conversation.specs.Talking.{MaySend, MaySpeak, Rests, Says, Takes};
ghost use Rattle.atspi_live_conversation.specs.inner.Talking.{SaysOne};
ghost use Rattle.atspi_live_examples.specs.conversation.Logs.{IsNever, IsSpentAt, Log, Logs, Nowhere, call, fresh};

/// An end takes one more message behind those before, and hands out none by that.
pub fn takes()
    ensures first { Takes Logs fresh (call 1 ∷ [], []) (call 1) }
    ensures behind { Takes Logs (call 1 ∷ [], call 7 ∷ []) (call 1 ∷ call 2 ∷ [], call 7 ∷ []) (call 2) }
    ensures before { Takes Logs (call 1 ∷ [], []) (call 2 ∷ call 1 ∷ [], []) (call 2) → ⊥ }
    ensures other { Takes Logs fresh (call 1 ∷ [], []) (call 2) → ⊥ }
    ensures none { Takes Logs fresh fresh (call 1) → ⊥ }
    ensures answered { Takes Logs fresh (call 1 ∷ [], call 7 ∷ []) (call 1) → ⊥ }
    ensures stood_nowhere { (n : ℕ) → Takes Nowhere n n (call 1) }
{}

/// It hands out one more behind those before, and takes none by that.
pub fn hands_out()
    ensures first { HandsOut Logs fresh ([], call 1 ∷ []) (call 1) }
    ensures behind { HandsOut Logs (call 7 ∷ [], call 1 ∷ []) (call 7 ∷ [], call 1 ∷ call 2 ∷ []) (call 2) }
    ensures before { HandsOut Logs ([], call 1 ∷ []) ([], call 2 ∷ call 1 ∷ []) (call 2) → ⊥ }
    ensures other { HandsOut Logs fresh ([], call 1 ∷ []) (call 2) → ⊥ }
    ensures none { HandsOut Logs fresh fresh (call 1) → ⊥ }
    ensures took { HandsOut Logs fresh (call 7 ∷ [], call 1 ∷ []) (call 1) → ⊥ }
    ensures stood_nowhere { (n : ℕ) → HandsOut Nowhere n n (call 1) }
{}

/// It does nothing for the link.
pub fn rests()
    ensures same { (l : Log) → Rests Logs l l }
    ensures took { Rests Logs fresh (call 1 ∷ [], []) → ⊥ }
    ensures handed_out { Rests Logs fresh ([], call 1 ∷ []) → ⊥ }
    ensures stood_nowhere { (n m : ℕ) → Rests Nowhere n m }
    ensures none { HasNone (λ (l : List ℕ). length l) [] }
    ensures one { HasNone (λ (l : List ℕ). length l) (7 ∷ []) → ⊥ }
{}

/// All of some messages meet the rules; one with the number 0 does not, wherever it stands.
pub fn rules_met()
    ensures none { AllMeet [] }
    ensures two { AllMeet (call 1 ∷ call 2 ∷ []) }
    ensures first { AllMeet (call 0 ∷ call 2 ∷ []) → ⊥ }
    ensures last { AllMeet (call 1 ∷ call 0 ∷ []) → ⊥ }
{}

/// What an end hands out meets the rules where all that it took does: so one may be handed out that was taken.
pub fn may_send()
    ensures meets { MaySend Logs fresh (call 1) }
    ensures unruly { MaySend Logs fresh (call 0) → ⊥ }
    ensures returned { (e : Envelope) → MaySend Logs (e ∷ [], []) e }
    ensures stood_nowhere { MaySend Nowhere 0 (call 0) }
{}

/// An end may speak that took only messages which meet the rules, whatever it handed out and told beside the link.
pub fn may_speak()
    ensures fresh { MaySpeak (λ aside. Logs) fresh }
    ensures took { MaySpeak (λ aside. Logs) (call 1 ∷ [], call 0 ∷ []) }
    ensures took_unruly { MaySpeak (λ aside. Logs) (call 0 ∷ [], []) → ⊥ }
    ensures told_aside { MaySpeak (λ aside end took said. (aside ≡ codes "a") × Logs end took said) fresh }
    ensures stood_nowhere { MaySpeak (λ aside. Nowhere) 0 → ⊥ }
{}

/// One message that is handed out is put behind the bytes that wait, or left out where it passes the limits of the
/// wire; where the end has none, all is as before.
pub fn says_one()
    ensures one { (e : Envelope) → Fits e → SaysOne Logs true fresh ([], e ∷ []) (codes "a") (codes "a" ++ written e) }
    ensures left_out { (e : Envelope) → (Fits e → ⊥) → SaysOne Logs true fresh ([], e ∷ []) (codes "a") (codes "a") }
    ensures not_sent { (e : Envelope) → (Fits e → ⊥) → SaysOne Logs true fresh ([], e ∷ []) [] (codes "a") → ⊥ }
    ensures not_handed_out { (unsent more : List ℕ) → SaysOne Logs true fresh fresh unsent more → ⊥ }
    ensures none { (l : Log) (unsent : List ℕ) → SaysOne Logs false l l unsent unsent }
    ensures none_but_handed_out { (e : Envelope) (unsent : List ℕ) → SaysOne Logs false fresh ([], e ∷ []) unsent unsent
        → ⊥ }
    ensures none_but_put { (l : Log) → SaysOne Logs false l l [] (codes "a") → ⊥ }
{}

/// Some messages are put behind the bytes that wait, in the order in which they were handed out.
pub fn says()
    ensures none { (l : Log) (unsent : List ℕ) → Says Logs l l unsent unsent }
    ensures two { (e f g : Envelope) → Fits e → Fits f
        → Says Logs ([], g ∷ []) ([], g ∷ e ∷ f ∷ []) (codes "a") (codes "a" ++ (written e ++ written f)) }
    ensures none_but_put { (l : Log) → Says Logs fresh fresh [] (codes "a") → ⊥ }
    ensures bytes_lost { Says Logs fresh fresh (codes "a") [] → ⊥ }
    ensures took { (e : Envelope) (unsent : List ℕ) → Says Logs fresh (e ∷ [], []) unsent unsent → ⊥ }
{}

/// What is held behind whole messages awaits more where there is no fault, and else has just that fault.
pub fn ends_of_what_is_held()
    ensures nothing { EndsIn None [] }
    ensures message { (e : Envelope) (bytes : List ℕ) → IsMessage e bytes → EndsIn None bytes → ⊥ }
    ensures fault { (bytes : List ℕ) (place reason : ℕ) → HasFault bytes place reason
        → EndsIn (Some (record { place = place; reason = reason })) bytes }
    ensures no_fault { (place reason : ℕ) → EndsIn (Some (record { place = place; reason = reason })) [] → ⊥ }
{}

/// The end takes the messages that stand at the front of what is held, in their order, and the rest is held still.
pub fn attends()
    ensures none { (l : Log) (held : List ℕ) → Attends Logs held held l l }
    ensures two { (e f g : Envelope) (m n rest : List ℕ) → IsMessage e m → IsMessage f n
        → Attends Logs (m ++ (n ++ rest)) rest (g ∷ [], []) (g ∷ e ∷ f ∷ [], []) }
    ensures bytes_lost { Attends Logs (codes "ab") (codes "b") fresh fresh → ⊥ }
    ensures not_taken { (e : Envelope) (m : List ℕ) → IsMessage e m → Attends Logs m [] fresh fresh → ⊥ }
    ensures handed_out { (e : Envelope) (held : List ℕ) → Attends Logs held held fresh ([], e ∷ []) → ⊥ }
{}

/// It takes all that are whole, up to one at fault.
pub fn attends_all()
    ensures one { (e : Envelope) (m : List ℕ) → IsMessage e m → AttendsAll Logs None m [] fresh (e ∷ [], []) }
    ensures to_a_fault { (e : Envelope) (m bytes : List ℕ) (place reason : ℕ) → IsMessage e m
        → HasFault bytes place reason
        → AttendsAll Logs (Some (record { place = place; reason = reason })) (m ++ bytes) bytes fresh (e ∷ [], []) }
    ensures one_left { (e : Envelope) (m : List ℕ) → IsMessage e m → AttendsAll Logs None m m fresh fresh → ⊥ }
    ensures bytes_lost { AttendsAll Logs None (codes "ab") (codes "b") fresh fresh → ⊥ }
{}

/// It takes those before one that would take its own past the last number, and does nothing more.
pub fn attends_to_spent()
    ensures first { (e : Envelope) (m rest : List ℕ) → IsMessage e m
        → AttendsToSpent Logs (IsSpentAt e) (m ++ rest) fresh fresh }
    ensures second { (e f : Envelope) (m n rest : List ℕ) → IsMessage e m → IsMessage f n
        → AttendsToSpent Logs (IsSpentAt f) (m ++ (n ++ rest)) fresh (e ∷ [], []) }
    ensures none_would { (held : List ℕ) (old new : Log) → AttendsToSpent Logs IsNever held old new → ⊥ }
    ensures no_message { (e : Envelope) (old new : Log) → AttendsToSpent Logs (IsSpentAt e) [] old new → ⊥ }
    ensures answered { (e f : Envelope) (held : List ℕ) → AttendsToSpent Logs (IsSpentAt e) held fresh ([], f ∷ [])
        → ⊥ }
    ensures lost_one { (e f : Envelope) (held : List ℕ) → AttendsToSpent Logs (IsSpentAt e) held (f ∷ [], []) fresh
        → ⊥ }
{}
