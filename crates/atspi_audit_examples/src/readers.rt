//! Which calls of its own the law of readers lets a reader send.

ghost use Rattle.std.specs.Prelude.{◌≡◌, ◌∷◌, [], true, false, codes};
ghost use Rattle.atspi_match.specs.routing.Queues.{Bus};
ghost use Rattle.atspi_protocol.specs.declared.following.question.Question.TheVariants.{AddMatch, GetChildren};
ghost use Rattle.atspi_protocol.specs.declared.following.question.Question.TheVariants.{GetItems, GetPart, Hello};
ghost use Rattle.atspi_protocol.specs.declared.following.question.Question.TheVariants.{RegisterEvent};
ghost use Rattle.atspi_protocol.specs.declared.news.part.PartName.TheVariants.{Text};
ghost use Rattle.atspi_protocol.specs.following.Calls.{asking};
ghost use Rattle.atspi_trace.specs.Due.{IsOwnCall};
ghost use Rattle.atspi_trace.specs.Hearing.{may_ask};
ghost use Rattle.atspi_trace.specs.World as fate;
ghost use Rattle.atspi_audit_due.specs.Readers.{IsFreeCall, may_call};
ghost use Rattle.atspi_audit_examples.specs.Cases.{asked, call, freely, idle, reader, registered_as, registering};

/// A call of its start at any time, one for a part of a name and a path.
#[tactic(auto, unfolding(atspi_base::specs::valid_names::Names::is_bus_name, atspi_base::specs::valid_names::Elements::are_two_or_more, atspi_base::specs::valid_names::Elements::are_elements, atspi_base::specs::valid_names::Elements::parts_of, atspi_base::specs::valid_names::Names::is_path))]
pub fn may_be_called()
    ensures hello { may_call idle Hello ≡ true }
    ensures children { may_call idle GetChildren ≡ true }
    ensures rule { may_call idle (AddMatch (codes "type='signal',interface='org.a11y.atspi.Cache'")) ≡ true }
    ensures other_rule { may_call idle (AddMatch (codes "type='signal'")) ≡ false }
    ensures pattern { may_call idle (RegisterEvent (codes "object:text-caret-moved")) ≡ true }
    ensures other_pattern { may_call idle (RegisterEvent (codes "object:bounds-changed")) ≡ false }
    ensures part { may_call idle (GetPart (codes ":1.1") (codes "/a") Text) ≡ true }
    ensures pathless_part { may_call idle (GetPart (codes ":1.1") (codes "a") Text) ≡ false }
{}

/// All items once the calls for the five patterns were returned, whatever became of the match rules, and of whom the
/// registry told; which is more than a reader of this project asks. Not before, and not where one of them failed.
#[tactic(auto, unfolding(atspi_base::specs::valid_names::Names::is_bus_name, atspi_base::specs::valid_names::Elements::are_two_or_more, atspi_base::specs::valid_names::Elements::are_elements, atspi_base::specs::valid_names::Elements::parts_of))]
pub fn items_may_be_called()
    ensures registered { may_call (registering fate.returned) (GetItems (codes ":1.1")) ≡ true }
    ensures stricter { may_ask (registering fate.returned) (GetItems (codes ":1.1")) ≡ false }
    ensures waits { may_call (registering fate.waits) (GetItems (codes ":1.1")) ≡ false }
    ensures failed { may_call (registering fate.failed) (GetItems (codes ":1.1")) ≡ false }
    ensures nothing { may_call idle (GetItems (codes ":1.1")) ≡ false }
    ensures no_name { may_call (registering fate.returned) (GetItems (codes "x")) ≡ false }
{}

/// A reader that just took a message, and of whose calls none waits, may send such a call with its next serial.
pub fn may_stand()
    ensures first { (b : Bus) → IsFreeCall (freely b (reader 0 idle)) 0 (asking 5 Hello) }
    ensures items { (b : Bus)
        → IsFreeCall (freely b (reader 0 (registering fate.returned))) 0 (asking 5 (GetItems (codes ":1.1"))) }
{}

/// It may not while an earlier call waits, nor with another serial.
pub fn may_not_stand()
    ensures waits { (b : Bus)
        → IsFreeCall (freely b (reader 0 (asked (call 4 Hello fate.waits ∷ [])))) 0 (asking 5 GetChildren) → ⊥ }
    ensures serial { (b : Bus) → IsFreeCall (freely b (reader 0 idle)) 0 (asking 6 Hello) → ⊥ }
{}
