//! The registry's refusals and replies, what it tells of who left, and messages that are numbered, meet the rules and
//! are asked for.

ghost use Rattle.std.specs.Prelude.{◌≡◌, ◌∷◌, [], None, Some, codes};
ghost use Rattle.atspi_types.specs.Kinds.{u32};
ghost use Rattle.atspi_types.specs.Data.{number_data, text_data};
ghost use Rattle.atspi_protocol.specs.declared.members.member.ObjectMember.TheVariants.{DoAction, GetRole};
ghost use Rattle.atspi_protocol.specs.declared.members.property.ObjectProperty.TheVariants.{Name};
ghost use Rattle.atspi_protocol.specs.ends.Messages.{fails, return_to, returns};
ghost use Rattle.atspi_protocol.specs.ends.Places.{reference};
ghost use Rattle.atspi_protocol.specs.members.Asked.{calls, sets};
ghost use Rattle.atspi_protocol.specs.registering.Answers.{answers, answers_member, news_of_removal};
ghost use Rattle.atspi_protocol.specs.registering.Answers.{news_of_removal_at, only, reference_in};
ghost use Rattle.atspi_protocol.specs.registering.Laws.{AreOneReply, replies_in};
ghost use Rattle.atspi_protocol.specs.registering.RegistryState.{begins, pairs_of, pairs_without};
ghost use Rattle.atspi_protocol.specs.registering.Room.{at, children_pair, four_, message, room, text_pair, three_};
ghost use Rattle.atspi_protocol.specs.registering.Room.{two_, window_pair};
ghost use Rattle.atspi_protocol.specs.registering.Steps.{forgets};
ghost use Rattle.atspi_protocol.specs.registering.Told.{children_changed, deregistered};
ghost use Rattle.atspi_protocol.specs.registry_laws.Asked.{AllAskedFor};
ghost use Rattle.atspi_protocol.specs.registry_laws.Sends.{AllMeet, AreNumbered, started};
ghost use Rattle.atspi_examples.specs.protocol.Lists.{ping};

/// A member that the registry has not is unknown, and none of its properties can be set.
pub fn no_requests()
    ensures member { answers_member DoAction room (codes ":1.0") two_ [] ≡ only room (fails (codes "UnknownMethod")) }
    ensures role { answers_member GetRole room (codes ":1.0") two_ [] ≡ only room (returns (number_data u32 14 ∷ [])) }
    ensures called { answers (calls DoAction []) room (codes ":1.0") two_ ≡ only room (fails (codes "UnknownMethod")) }
    ensures set { answers (sets Name (text_data [])) room (codes ":1.0") two_
        ≡ only room (fails (codes "PropertyReadOnly")) }
    ensures reference { reference_in (reference (codes ":1.4") (codes "/d") ∷ []) ≡ (codes ":1.4", codes "/d") }
    ensures no_reference { reference_in (text_data (codes ":1.4") ∷ []) ≡ ([], []) }
    ensures nothing { reference_in [] ≡ ([], []) }
{}

/// The pairs of one listener, and those of the others.
pub fn pairs()
    ensures own { pairs_of room.pairs two_ ≡ children_pair ∷ text_pair ∷ [] }
    ensures others { pairs_without room.pairs two_ ≡ window_pair ∷ [] }
    ensures of_three { pairs_of room.pairs three_ ≡ window_pair ∷ [] }
    ensures no_child { news_of_removal_at room.pairs 3 None ≡ [] }
    ensures no_place { news_of_removal room.pairs room.children None ≡ [] }
    ensures behind { news_of_removal room.pairs room.children (Some 2) ≡ [] }
{}

/// Each message has a number that is not 0.
pub fn numbered()
    ensures none { AreNumbered [] }
    ensures one { AreNumbered (record ping { serial = 7 } ∷ []) }
    ensures unnumbered { AreNumbered (ping ∷ []) → ⊥ }
    ensures second { AreNumbered (record ping { serial = 7 } ∷ ping ∷ []) → ⊥ }
{}

/// Each message meets the rules, the first and those behind it: it has a type, its fields and a number that is not 0.
pub fn meeting()
    ensures none { AllMeet [] }
    ensures one { AllMeet (record ping { serial = 7 } ∷ []) }
    ensures two { AllMeet (record ping { serial = 7 } ∷ record ping { serial = 8 } ∷ []) }
    ensures unnumbered { AllMeet (ping ∷ []) → ⊥ }
    ensures untyped { AllMeet (record ping { serial = 7; kind = 0 } ∷ []) → ⊥ }
    ensures pathless { AllMeet (record ping { serial = 7; path = None } ∷ []) → ⊥ }
    ensures second { AllMeet (record ping { serial = 7 } ∷ ping ∷ []) → ⊥ }
{}

/// A registry that has started sent three calls, numbered from 1.
pub fn sent()
    ensures numbered { AreNumbered started.out }
    ensures next { started.state.next ≡ 4 }
    ensures hello { started.state.hello ≡ Some 1 }
    ensures own { started.state.own ≡ None }
    ensures begins { begins ≡ record { pairs = []; children = []; embeds = 0; hello = None; own = None; next = 1 } }
{}

/// Of a connection that left first each of its pairs is told, and then its child, to those who are still there.
pub fn forgotten()
    ensures { (forgets (record room { pairs = (four_, codes "object") ∷ children_pair ∷ [] }) four_).sent
        ≡ at 10 (deregistered (four_, codes "object")) ∷ at 11 (children_changed (codes "remove") 0 (four_, codes "/d"))
        ∷ [] }
{}

/// A return and an error are replies, and no other message is; one reply is one message to the caller with the call's
/// number.
pub fn replies()
    ensures among { replies_in (message 2 None [] ∷ message 1 None [] ∷ message 4 None [] ∷ message 3 None [] ∷ [])
        ≡ message 2 None [] ∷ message 3 None [] ∷ [] }
    ensures one { AreOneReply (return_to two_ 5 [] ∷ []) two_ 5 }
    ensures none { AreOneReply [] two_ 5 → ⊥ }
    ensures more { AreOneReply (return_to two_ 5 [] ∷ return_to two_ 5 [] ∷ []) two_ 5 → ⊥ }
    ensures other_caller { AreOneReply (return_to (codes ":1.20") 5 [] ∷ []) two_ 5 → ⊥ }
    ensures other_number { AreOneReply (return_to two_ 6 [] ∷ []) two_ 5 → ⊥ }
{}

/// Each news of children is asked for, the first and those behind it.
pub fn asked_for()
    ensures both { AllAskedFor ((two_, codes "object:children-changed") ∷ [])
        (children_changed (codes "add") 0 (four_, codes "/d") ∷ children_changed (codes "remove") 0 (four_, codes "/d")
        ∷ []) }
    ensures second { AllAskedFor ((two_, codes "object:children-changed:add") ∷ [])
        (children_changed (codes "add") 0 (four_, codes "/d")
        ∷ children_changed (codes "remove") 0 (four_, codes "/d") ∷ []) → ⊥ }
{}
