//! What each condition of a match rule asks for.

ghost use Rattle.std.specs.Prelude.{◌≡◌, ◌∷◌, [], None, Some, codes, true, false};
ghost use Rattle.atspi_types.specs.Kinds.{u32};
ghost use Rattle.atspi_types.specs.Data.{text_data, path_data, number_data};
ghost use Rattle.atspi_match.specs.declared.condition.MessageType.TheVariants.{Signal, MethodCall, MethodReturn, Error};
ghost use Rattle.atspi_match.specs.declared.condition.Condition.TheVariants as condition;
ghost use Rattle.atspi_match.specs.routing.Routing.{asks_for, holds, matches};
ghost use Rattle.atspi_match.specs.routing.Room.{room, owners, zero_, one_, two_, call_to, named_m, reply_to, signal_m};
ghost use Rattle.atspi_match.specs.routing.Room.{signals as all_signals};
ghost use Rattle.atspi_examples.specs.routing.Heard.{at, sent_by, sent_to, telling, wrong_owners};

/// The four types by their numbers.
pub fn kinds()
    ensures signal { holds signal_m owners (condition.Kind Signal) ≡ true }
    ensures no_signal { holds (call_to one_) owners (condition.Kind Signal) ≡ false }
    ensures call { holds (call_to one_) owners (condition.Kind MethodCall) ≡ true }
    ensures return_ { holds (reply_to 2 one_ 7) owners (condition.Kind MethodReturn) ≡ true }
    ensures error { holds (reply_to 3 one_ 7) owners (condition.Kind Error) ≡ true }
    ensures no_return { holds (reply_to 3 one_ 7) owners (condition.Kind MethodReturn) ≡ false }
{}

/// A sender is the name itself, or owns it, where it is a well-known one; whoever waits for the name does not. A
/// message without a sender has none.
pub fn senders()
    ensures literal { holds (sent_by (Some one_)) owners (condition.Sender one_) ≡ true }
    ensures other { holds (sent_by (Some two_)) owners (condition.Sender one_) ≡ false }
    ensures owner { holds (sent_by (Some one_)) owners (condition.Sender (codes "a.b")) ≡ true }
    ensures waiting { holds (sent_by (Some two_)) owners (condition.Sender (codes "a.b")) ≡ false }
    ensures nobody { holds (sent_by (Some one_)) owners (condition.Sender (codes "x.y")) ≡ false }
    ensures well_known { holds (sent_by (Some (codes "x.y"))) owners (condition.Sender (codes "x.y")) ≡ true }
    ensures none { holds (sent_by None) owners (condition.Sender (codes "a.b")) ≡ false }
{}

/// A unique name is asked for literally alone, and an owner without a name is nobody.
pub fn owned_names()
    ensures unique { holds (sent_by (Some two_)) wrong_owners (condition.Sender one_) ≡ false }
    ensures nameless { holds (sent_by (Some two_)) wrong_owners (condition.Sender (codes "a.b")) ≡ false }
    ensures to_literal { holds (sent_to (Some (codes "a.b"))) owners (condition.Destination (codes "a.b")) ≡ true }
    ensures to_owner { holds (sent_to (Some one_)) owners (condition.Destination (codes "a.b")) ≡ true }
    ensures to_waiting { holds (sent_to (Some two_)) owners (condition.Destination (codes "a.b")) ≡ false }
    ensures to_other { holds (sent_to (Some zero_)) owners (condition.Destination one_) ≡ false }
    ensures to_all { holds signal_m owners (condition.Destination (codes "a.b")) ≡ false }
{}

/// An interface and a member are those of the message.
pub fn fields()
    ensures interface { holds signal_m owners (condition.Interface (codes "i.f")) ≡ true }
    ensures other_interface { holds signal_m owners (condition.Interface (codes "i.g")) ≡ false }
    ensures no_interface { holds (call_to one_) owners (condition.Interface (codes "i.f")) ≡ false }
    ensures member { holds signal_m owners (condition.Member (codes "M")) ≡ true }
    ensures other_member { holds signal_m owners (condition.Member (codes "N")) ≡ false }
    ensures no_member { holds (reply_to 2 one_ 7) owners (condition.Member (codes "M")) ≡ false }
{}

/// A path is the message's own, and none of a longer or shorter one.
pub fn paths()
    ensures same { holds (at (codes "/a/b")) owners (condition.Path (codes "/a/b")) ≡ true }
    ensures longer { holds (at (codes "/a/b/c")) owners (condition.Path (codes "/a/b")) ≡ false }
    ensures shorter { holds (at (codes "/a")) owners (condition.Path (codes "/a/b")) ≡ false }
    ensures none { holds (record signal_m { path = None }) owners (condition.Path (codes "/p")) ≡ false }
{}

/// A namespace has its own path and those below it; `/` has every path.
pub fn namespaces()
    ensures same { holds (at (codes "/a/b")) owners (condition.PathNamespace (codes "/a/b")) ≡ true }
    ensures below { holds (at (codes "/a/b/c")) owners (condition.PathNamespace (codes "/a/b")) ≡ true }
    ensures far_below { holds (at (codes "/a/b/c/d")) owners (condition.PathNamespace (codes "/a/b")) ≡ true }
    ensures beside { holds (at (codes "/a/bc")) owners (condition.PathNamespace (codes "/a/b")) ≡ false }
    ensures above { holds (at (codes "/a")) owners (condition.PathNamespace (codes "/a/b")) ≡ false }
    ensures other { holds (at (codes "/c/d/e")) owners (condition.PathNamespace (codes "/a/b")) ≡ false }
    ensures all { holds (at (codes "/a")) owners (condition.PathNamespace (codes "/")) ≡ true }
    ensures root { holds (at (codes "/")) owners (condition.PathNamespace (codes "/")) ≡ true }
    ensures no_path { holds (record signal_m { path = None }) owners (condition.PathNamespace (codes "/")) ≡ false }
{}

/// An argument is a text that is equal to the value, at that index alone; a namespace of names has the value itself and
/// what begins with it and a dot.
pub fn arguments()
    ensures first { holds (telling (text_data (codes "x") ∷ (text_data (codes "y") ∷ []))) owners
        (condition.Arg 0 (codes "x")) ≡ true }
    ensures second { holds (telling (text_data (codes "x") ∷ (text_data (codes "y") ∷ []))) owners
        (condition.Arg 1 (codes "y")) ≡ true }
    ensures of_first { holds (telling (text_data (codes "x") ∷ (text_data (codes "y") ∷ []))) owners
        (condition.Arg 1 (codes "x")) ≡ false }
    ensures third { holds (telling (text_data (codes "x") ∷ (text_data (codes "y") ∷ []))) owners
        (condition.Arg 2 (codes "x")) ≡ false }
    ensures front { holds (telling (text_data (codes "xy") ∷ [])) owners (condition.Arg 0 (codes "x")) ≡ false }
    ensures path { holds (telling (path_data (codes "/x") ∷ [])) owners (condition.Arg 0 (codes "/x")) ≡ false }
    ensures number { holds (telling (number_data u32 1 ∷ [])) owners (condition.Arg 0 (codes "1")) ≡ false }
    ensures same_name { holds (telling (text_data (codes "a.b") ∷ [])) owners (condition.Arg0Namespace (codes "a.b"))
        ≡ true }
    ensures name_below { holds (telling (text_data (codes "a.b.c") ∷ [])) owners (condition.Arg0Namespace (codes "a.b"))
        ≡ true }
    ensures name_beside { holds (telling (text_data (codes "a.bc") ∷ [])) owners (condition.Arg0Namespace (codes "a.b"))
        ≡ false }
    ensures name_above { holds (telling (text_data (codes "a") ∷ [])) owners (condition.Arg0Namespace (codes "a.b"))
        ≡ false }
    ensures second_name { holds (telling (text_data (codes "x") ∷ (text_data (codes "a.b") ∷ []))) owners
        (condition.Arg0Namespace (codes "a.b")) ≡ false }
    ensures no_name { holds signal_m owners (condition.Arg0Namespace (codes "a.b")) ≡ false }
{}

/// An argument's path is equal to the value, or one of the two ends in `/` and the other begins with it; it may be a
/// text or a path.
pub fn branches()
    ensures same { holds (telling (text_data (codes "/a/b") ∷ [])) owners (condition.ArgPath 0 (codes "/a/b")) ≡ true }
    ensures path { holds (telling (path_data (codes "/a/b") ∷ [])) owners (condition.ArgPath 0 (codes "/a/b")) ≡ true }
    ensures below { holds (telling (path_data (codes "/a/b") ∷ [])) owners (condition.ArgPath 0 (codes "/a/")) ≡ true }
    ensures above { holds (telling (text_data (codes "/a/") ∷ [])) owners (condition.ArgPath 0 (codes "/a/b")) ≡ true }
    ensures no_slash { holds (telling (path_data (codes "/a/b") ∷ [])) owners (condition.ArgPath 0 (codes "/a"))
        ≡ false }
    ensures no_slash_above { holds (telling (path_data (codes "/a") ∷ [])) owners (condition.ArgPath 0 (codes "/a/b"))
        ≡ false }
    ensures other { holds (telling (text_data (codes "/c/d") ∷ [])) owners (condition.ArgPath 0 (codes "/a/")) ≡ false }
    ensures other_above { holds (telling (text_data (codes "/c/") ∷ [])) owners (condition.ArgPath 0 (codes "/a/b"))
        ≡ false }
    ensures nothing { holds (telling (text_data [] ∷ [])) owners (condition.ArgPath 0 (codes "/a")) ≡ false }
    ensures second { holds (telling (text_data [] ∷ (path_data (codes "/a/b") ∷ []))) owners
        (condition.ArgPath 1 (codes "/a/")) ≡ true }
    ensures of_second { holds (telling (text_data [] ∷ (path_data (codes "/a/b") ∷ []))) owners
        (condition.ArgPath 0 (codes "/a/")) ≡ false }
    ensures number { holds (telling (number_data u32 1 ∷ [])) owners (condition.ArgPath 0 (codes "/a/")) ≡ false }
{}

/// A rule asks for what all its conditions ask for; `eavesdrop` changes nothing. A connection asks for what one of its
/// own rules does.
pub fn rules()
    ensures both { matches signal_m owners (condition.Kind Signal ∷ (condition.Member (codes "M") ∷ [])) ≡ true }
    ensures second { matches signal_m owners (condition.Kind Signal ∷ (condition.Member (codes "N") ∷ [])) ≡ false }
    ensures first { matches signal_m owners (condition.Kind Error ∷ (condition.Member (codes "M") ∷ [])) ≡ false }
    ensures all { matches signal_m owners [] ≡ true }
    ensures eavesdrop { matches signal_m owners (condition.Eavesdrop true ∷ []) ≡ true }
    ensures no_eavesdrop { matches signal_m owners (condition.Eavesdrop false ∷ []) ≡ true }
    ensures by_owner { matches (sent_by (Some one_)) owners (condition.Sender (codes "a.b") ∷ []) ≡ true }
    ensures asked { asks_for (record room { rules = (2, all_signals) ∷ ((1, named_m) ∷ []) })
        (record signal_m { member = Some (codes "N") }) 2 ≡ true }
    ensures of_another { asks_for (record room { rules = (2, all_signals) ∷ ((1, named_m) ∷ []) })
        (record signal_m { member = Some (codes "N") }) 1 ≡ false }
{}
