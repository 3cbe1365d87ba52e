//! Worked cases, with the values worked out by hand. Each case is a clause of a function without a body. So a
//! definition that says otherwise is refused here.

ghost use Rattle.std.specs.Prelude.{◌≡◌, ◌∷◌, [], true, false, None, Some, codes};
ghost use Rattle.atspi_types.specs.Kinds.{Kind, kind, no_kinds, structure, text, path};
ghost use Rattle.atspi_types.specs.Data.{text_data, path_data, structure_data, array_data, item, no_items};
ghost use Rattle.atspi_types.specs.declared.fault.Order.TheVariants as order;
ghost use Rattle.atspi_protocol.specs.ends.Places.{reference, references};
ghost use Rattle.atspi_protocol.specs.ends.Messages.{call_to, signal_of, return_to, error_to, error_word, returns};
ghost use Rattle.atspi_protocol.specs.ends.Messages.{fails, reply_to, expects_reply, replies, numbered, posted};
ghost use Rattle.atspi_protocol.specs.ends.Covering.{covers};

use crate::ends::CallError;

/// Which events a pattern covers: by its parts, whatever their dashes and capitals; a missing or empty part covers all.
pub fn patterns()
    ensures whole { covers (codes "object:state-changed:focused") (codes "state-changed") (codes "focused") ≡ true }
    ensures without_minor { covers (codes "object:state-changed") (codes "state-changed") (codes "focused") ≡ true }
    ensures capitals { covers (codes "Object:StateChanged:Focused") (codes "state-changed") (codes "focused") ≡ true }
    ensures another_minor { covers (codes "object:state-changed:checked") (codes "state-changed") (codes "focused")
        ≡ false }
    ensures another_name { covers (codes "object:text-changed:focused") (codes "state-changed") (codes "focused")
        ≡ false }
    ensures another_class { covers (codes "window:state-changed:focused") (codes "state-changed") (codes "focused")
        ≡ false }
    ensures empty { covers [] (codes "state-changed") (codes "focused") ≡ true }
    ensures class_alone { covers (codes "object") (codes "state-changed") (codes "focused") ≡ true }
    ensures empty_parts { covers (codes "::focused") (codes "state-changed") (codes "focused") ≡ true }
    ensures empty_minor { covers (codes "object:state-changed:") (codes "state-changed") (codes "focused") ≡ true }
    ensures fourth_part { covers (codes "object:state-changed:focused:more") (codes "state-changed") (codes "focused")
        ≡ true }
    ensures no_minor_word { covers (codes "object:text-caret-moved") (codes "text-caret-moved") [] ≡ true }
    ensures minor_of_none { covers (codes "object:text-caret-moved:x") (codes "text-caret-moved") [] ≡ false }
    ensures dash_alone { covers (codes "object:-") (codes "state-changed") (codes "focused") ≡ false }
    ensures longer_part { covers (codes "object:state-changedx") (codes "state-changed") (codes "focused") ≡ false }
    ensures shorter_part { covers (codes "object:state") (codes "state-changed") (codes "focused") ≡ false }
    ensures at_letters { covers (codes "object:[") (codes "{") (codes "focused") ≡ false }
    ensures before_letters { covers (codes "object:@") (codes "`") (codes "focused") ≡ false }
    ensures last_letter { covers (codes "object:AZ") (codes "az") (codes "focused") ≡ true }
{}

/// References, alone and in an array.
pub fn places()
    ensures one { reference (codes ":1.1") (codes "/a")
        ≡ structure_data (item (text_data (codes ":1.1")) (item (path_data (codes "/a")) no_items)) }
    ensures none { references [] ≡ array_data (structure (kind text (kind path no_kinds))) no_items }
    ensures some { references ((codes ":1.1", codes "/a") ∷ [])
        ≡ array_data (structure (kind text (kind path no_kinds)))
        (item (reference (codes ":1.1") (codes "/a")) no_items) }
{}

/// A call has no flags and a destination, a signal the flag and no destination.
pub fn calls_and_signals()
    ensures call { call_to (codes "a.b") (codes "/p") (codes "i.f") (codes "M") (text_data (codes "x") ∷ [])
        ≡ record {
          order = order.Little;
          kind = 1;
          flags = 0;
          serial = 0;
          path = Some (codes "/p");
          interface = Some (codes "i.f");
          member = Some (codes "M");
          error = None;
          reply = None;
          destination = Some (codes "a.b");
          sender = None;
          body = text_data (codes "x") ∷ [];
        } }
    ensures signal { signal_of (codes "/p") (codes "i.f") (codes "M") []
        ≡ record {
          order = order.Little;
          kind = 4;
          flags = 1;
          serial = 0;
          path = Some (codes "/p");
          interface = Some (codes "i.f");
          member = Some (codes "M");
          error = None;
          reply = None;
          destination = None;
          sender = None;
          body = [];
        } }
{}

/// A reply goes to the caller with the serial of its call; an error's text is the last word of its name.
pub fn answers()
    ensures returned { reply_to (codes ":1.1") 7 (returns (text_data (codes "x") ∷ []))
        ≡ record {
          order = order.Little;
          kind = 2;
          flags = 1;
          serial = 0;
          path = None;
          interface = None;
          member = None;
          error = None;
          reply = Some 7;
          destination = Some (codes ":1.1");
          sender = None;
          body = text_data (codes "x") ∷ [];
        } }
    ensures failed { reply_to (codes ":1.1") 7 (fails (error_word CallError.InvalidArgs))
        ≡ record {
          order = order.Little;
          kind = 3;
          flags = 1;
          serial = 0;
          path = None;
          interface = None;
          member = None;
          error = Some (codes "org.freedesktop.DBus.Error.InvalidArgs");
          reply = Some 7;
          destination = Some (codes ":1.1");
          sender = None;
          body = text_data (codes "InvalidArgs") ∷ [];
        } }
    ensures words { error_word CallError.UnknownObject ∷ error_word CallError.UnknownInterface
        ∷ error_word CallError.UnknownMethod ∷ error_word CallError.UnknownProperty
        ∷ error_word CallError.PropertyReadOnly ∷ []
        ≡ codes "UnknownObject" ∷ codes "UnknownInterface" ∷ codes "UnknownMethod" ∷ codes "UnknownProperty"
        ∷ codes "PropertyReadOnly" ∷ [] }
{}

/// A call with flag 1 has no reply, whatever its other flags; and numbers rise by one.
pub fn numbers()
    ensures expected { replies (codes ":1.1") (record (call_to [] [] [] [] []) { serial = 5 }) (returns [])
        ≡ return_to (codes ":1.1") 5 [] ∷ [] }
    ensures unexpected { replies (codes ":1.1") (record (call_to [] [] [] [] []) { serial = 5; flags = 1 }) (returns [])
        ≡ [] }
    ensures other_flags { expects_reply (record (call_to [] [] [] [] []) { flags = 2 }) ≡ true }
    ensures both_flags { expects_reply (record (call_to [] [] [] [] []) { flags = 3 }) ≡ false }
    ensures no_call { expects_reply (signal_of [] [] [] []) ≡ false }
    ensures none { numbered 4 [] ≡ [] }
    ensures two { numbered 4 (signal_of [] [] [] [] ∷ return_to [] 9 [] ∷ [])
        ≡ record (signal_of [] [] [] []) { serial = 4 } ∷ record (return_to [] 9 []) { serial = 5 } ∷ [] }
    ensures queue { posted (record { next = 4; out = return_to [] 3 [] ∷ [] }) (signal_of [] [] [] [] ∷ [])
        ≡ record { next = 5; out = return_to [] 3 [] ∷ record (signal_of [] [] [] []) { serial = 4 } ∷ [] } }
{}
