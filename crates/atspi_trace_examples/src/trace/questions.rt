//! Which calls of its own a reader may send, and how a message is read as one.

ghost use Rattle.std.specs.Prelude.{◌≡◌, ◌∷◌, [], None, Some, codes, true, false, map};
ghost use Rattle.atspi_protocol.specs.declared.following.question.Question.TheVariants.{AddMatch, GetChildren};
ghost use Rattle.atspi_protocol.specs.declared.following.question.Question.TheVariants.{GetItems, GetPart, Hello};
ghost use Rattle.atspi_protocol.specs.declared.following.question.Question.TheVariants.{RegisterEvent};
ghost use Rattle.atspi_protocol.specs.declared.news.part.PartName.TheVariants.{Caret, Columns, Text};
ghost use Rattle.atspi_protocol.specs.ends.Messages.{call_to};
ghost use Rattle.atspi_protocol.specs.following.Calls.{asking};
ghost use Rattle.atspi_protocol.specs.following.ReaderState.{start_calls};
ghost use Rattle.atspi_types.specs.Data.{text_data};
ghost use Rattle.atspi_trace.specs.World as fate;
ghost use Rattle.atspi_trace.specs.Hearing.{is_answered, is_listening, is_registered, listens, may_ask, part_named};
ghost use Rattle.atspi_trace.specs.Hearing.{patterns_in, question_in, registers, rules_in, second_text};
ghost use Rattle.atspi_trace_examples.specs.trace.Small.{asked, call, idle};

/// Each call of a reader's own is read back from its message.
pub fn calls()
    ensures hello { question_in (asking 5 Hello) ≡ Some Hello }
    ensures rule { question_in (asking 5 (AddMatch (codes "x"))) ≡ Some (AddMatch (codes "x")) }
    ensures pattern { question_in (asking 5 (RegisterEvent (codes "x"))) ≡ Some (RegisterEvent (codes "x")) }
    ensures children { question_in (asking 5 GetChildren) ≡ Some GetChildren }
    ensures items { question_in (asking 5 (GetItems (codes ":1.1"))) ≡ Some (GetItems (codes ":1.1")) }
    ensures text { question_in (asking 5 (GetPart (codes ":1.1") (codes "/a") Text))
        ≡ Some (GetPart (codes ":1.1") (codes "/a") Text) }
    ensures caret { question_in (asking 5 (GetPart (codes ":1.1") (codes "/a") Caret))
        ≡ Some (GetPart (codes ":1.1") (codes "/a") Caret) }
    ensures columns { question_in (asking 5 (GetPart (codes ":1.1") (codes "/a") Columns))
        ≡ Some (GetPart (codes ":1.1") (codes "/a") Columns) }
{}

/// No other message is one.
pub fn no_calls()
    ensures signal { question_in (record (asking 5 Hello) { kind = 4 }) ≡ None }
    ensures member { question_in (record (asking 5 Hello) { member = Some (codes "Ping") }) ≡ None }
    ensures no_member { question_in (record (asking 5 Hello) { member = None }) ≡ None }
    ensures property { question_in
        (call_to (codes ":1.1") (codes "/a") (codes "org.freedesktop.DBus.Properties") (codes "Get")
        (text_data (codes "org.a11y.atspi.Accessible") ∷ (text_data (codes "Name") ∷ []))) ≡ None }
    ensures second { second_text (text_data (codes "a") ∷ (text_data (codes "b") ∷ (text_data (codes "c") ∷ [])))
        ≡ codes "b" }
    ensures no_second { second_text (text_data (codes "a") ∷ []) ≡ [] }
    ensures caret { part_named (codes "CaretOffset") ≡ Some Caret }
    ensures columns { part_named (codes "NColumns") ≡ Some Columns }
    ensures no_part { part_named (codes "Text") ≡ None }
{}

/// The rules and patterns of a reader's start, in its order; each was asked for where a call with it was returned.
pub fn listening()
    ensures rules { rules_in start_calls
        ≡ codes "type='signal',interface='org.freedesktop.DBus',member='NameOwnerChanged'"
        ∷ (codes "type='signal',interface='org.a11y.atspi.Cache'"
        ∷ (codes "type='signal',interface='org.a11y.atspi.Event.Object'" ∷ [])) }
    ensures patterns { patterns_in start_calls
        ≡ codes "object:children-changed"
        ∷ (codes "object:property-change"
        ∷ (codes "object:state-changed"
        ∷ (codes "object:text-changed" ∷ (codes "object:text-caret-moved" ∷ [])))) }
    ensures listens { listens (codes "x") (AddMatch (codes "x")) fate.returned ≡ true }
    ensures other_rule { listens (codes "x") (AddMatch (codes "y")) fate.returned ≡ false }
    ensures waits { listens (codes "x") (AddMatch (codes "x")) fate.waits ≡ false }
    ensures failed { listens (codes "x") (AddMatch (codes "x")) fate.failed ≡ false }
    ensures no_rule { listens (codes "x") (RegisterEvent (codes "x")) fate.returned ≡ false }
    ensures registers { registers (codes "x") (RegisterEvent (codes "x")) fate.returned ≡ true }
    ensures other_pattern { registers (codes "x") (RegisterEvent (codes "y")) fate.returned ≡ false }
    ensures unregistered { registers (codes "x") (RegisterEvent (codes "x")) fate.waits ≡ false }
    ensures no_pattern { registers (codes "x") (AddMatch (codes "x")) fate.returned ≡ false }
    ensures all_rules { is_listening (map (λ q. call 1 q fate.returned) start_calls) ≡ true }
    ensures all_patterns { is_registered (map (λ q. call 1 q fate.returned) start_calls) ≡ true }
    ensures no_rules { is_listening (map (λ q. call 1 q fate.failed) start_calls) ≡ false }
    ensures no_patterns { is_registered (map (λ q. call 1 q fate.failed) start_calls) ≡ false }
    ensures nothing { is_listening [] ≡ false }
{}

/// A call of its start a reader may send at any time, one for a part of a name and a path, and one for all items of an
/// application that it was told of once it listens.
#[tactic(auto, unfolding(atspi_base::specs::valid_names::Names::is_bus_name, atspi_base::specs::valid_names::Elements::are_two_or_more, atspi_base::specs::valid_names::Elements::are_elements, atspi_base::specs::valid_names::Elements::parts_of, atspi_base::specs::valid_names::Names::is_path))]
pub fn may_be_asked()
    ensures hello { may_ask idle Hello ≡ true }
    ensures children { may_ask idle GetChildren ≡ true }
    ensures rule { may_ask idle (AddMatch (codes "type='signal',interface='org.a11y.atspi.Cache'")) ≡ true }
    ensures other_rule { may_ask idle (AddMatch (codes "type='signal'")) ≡ false }
    ensures pattern { may_ask idle (RegisterEvent (codes "object:text-caret-moved")) ≡ true }
    ensures other_pattern { may_ask idle (RegisterEvent (codes "object:bounds-changed")) ≡ false }
    ensures part { may_ask idle (GetPart (codes ":1.1") (codes "/a") Text) ≡ true }
    ensures nameless_part { may_ask idle (GetPart (codes "x") (codes "/a") Text) ≡ false }
    ensures pathless_part { may_ask idle (GetPart (codes ":1.1") (codes "a") Text) ≡ false }
    ensures items { may_ask
        (record (asked (map (λ q. call 1 q fate.returned) start_calls)) { named = codes ":1.1" ∷ [] })
        (GetItems (codes ":1.1")) ≡ true }
    ensures untold { may_ask
        (record (asked (map (λ q. call 1 q fate.returned) start_calls)) { named = codes ":1.2" ∷ [] })
        (GetItems (codes ":1.1")) ≡ false }
    ensures no_name { may_ask
        (record (asked (map (λ q. call 1 q fate.returned) start_calls)) { named = codes "x" ∷ [] })
        (GetItems (codes "x")) ≡ false }
    ensures early { may_ask (record (asked (map (λ q. call 1 q fate.waits) start_calls)) { named = codes ":1.1" ∷ [] })
        (GetItems (codes ":1.1")) ≡ false }
{}

/// A call is answered by a return or an error.
pub fn asked_parts()
    ensures waits { is_answered (call 1 Hello fate.waits) ≡ false }
    ensures returned { is_answered (call 1 Hello fate.returned) ≡ true }
    ensures failed { is_answered (call 1 Hello fate.failed) ≡ true }
{}
