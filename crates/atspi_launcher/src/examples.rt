//! Worked cases, with the values worked out by hand. Each case is a clause of a function without a body.

ghost use Rattle.std.specs.Prelude.{◌≡◌, [], ◌∷◌, false, true, None, Some, Ok, Err, codes};
ghost use Rattle.atspi_types.specs.Kinds.{boolean, text, u32};
ghost use Rattle.atspi_types.specs.Data.{boolean_data, number_data, text_data, variant_data};
ghost use Rattle.atspi_message.specs.Envelope.{Envelope};
ghost use Rattle.atspi_protocol.specs.ends.Messages.{call_to, error_to, return_to, signal_of};
ghost use Rattle.atspi_launcher.specs.Asked.{asked, launcher, launcher_path, status};
ghost use Rattle.atspi_launcher.specs.Launching.{as_variant, begins, changed, launcher_starts, launcher_takes};

use crate::ask::{Ask, Status};
use atspi_protocol::ends::CallError;

/// What calls of the object ask.
pub fn calls()
    ensures address { asked (call_to [] (codes "/org/a11y/bus") (codes "org.a11y.Bus") (codes "GetAddress") [])
        ≡ Ok Ask.Address }
    ensures no_interface { asked (record (call_to [] (codes "/org/a11y/bus") [] (codes "GetAddress") [])
        { interface = None }) ≡ Ok Ask.Address }
    ensures another_object { asked (call_to [] (codes "/") (codes "org.a11y.Bus") (codes "GetAddress") [])
        ≡ Err CallError.UnknownObject }
    ensures no_object { asked (record (call_to [] [] (codes "org.a11y.Bus") (codes "GetAddress") []) { path = None })
        ≡ Err CallError.UnknownObject }
    ensures another_interface { asked (call_to [] (codes "/org/a11y/bus") (codes "org.a11y.Bu") (codes "GetAddress") [])
        ≡ Err CallError.UnknownInterface }
    ensures of_another_interface { asked
        (call_to [] (codes "/org/a11y/bus") (codes "org.a11y.Status") (codes "GetAddress") [])
        ≡ Err CallError.UnknownMethod }
    ensures argument { asked
        (call_to [] (codes "/org/a11y/bus") (codes "org.a11y.Bus") (codes "GetAddress") (text_data [] ∷ []))
        ≡ Err CallError.InvalidArgs }
    ensures ping { asked (call_to [] (codes "/org/a11y/bus") (codes "org.freedesktop.DBus.Peer") (codes "Ping") [])
        ≡ Ok Ask.Ping }
    ensures introspect { asked
        (call_to [] (codes "/org/a11y/bus") (codes "org.freedesktop.DBus.Introspectable") (codes "Introspect") [])
        ≡ Ok Ask.Introspect }
{}

/// What calls of the interface for properties ask.
pub fn properties()
    ensures enabled { asked
        (call_to [] (codes "/org/a11y/bus") (codes "org.freedesktop.DBus.Properties") (codes "Get")
        (text_data (codes "org.a11y.Status") ∷ text_data (codes "IsEnabled") ∷ []))
        ≡ Ok (Ask.Get Status.IsEnabled) }
    ensures screen_reader { asked
        (call_to [] (codes "/org/a11y/bus") (codes "org.freedesktop.DBus.Properties") (codes "Get")
        (text_data (codes "org.a11y.Status") ∷ text_data (codes "ScreenReaderEnabled") ∷ []))
        ≡ Ok (Ask.Get Status.ScreenReaderEnabled) }
    ensures unknown { asked
        (call_to [] (codes "/org/a11y/bus") (codes "org.freedesktop.DBus.Properties") (codes "Get")
        (text_data (codes "org.a11y.Status") ∷ text_data (codes "Enabled") ∷ []))
        ≡ Err CallError.UnknownProperty }
    ensures of_none { asked
        (call_to [] (codes "/org/a11y/bus") (codes "org.freedesktop.DBus.Properties") (codes "Get")
        (text_data (codes "org.a11y.Bus") ∷ text_data (codes "IsEnabled") ∷ []))
        ≡ Err CallError.UnknownProperty }
    ensures of_nobody { asked
        (call_to [] (codes "/org/a11y/bus") (codes "org.freedesktop.DBus.Properties") (codes "Get")
        (text_data (codes "a.b") ∷ text_data (codes "IsEnabled") ∷ []))
        ≡ Err CallError.UnknownInterface }
    ensures three { asked
        (call_to [] (codes "/org/a11y/bus") (codes "org.freedesktop.DBus.Properties") (codes "Get")
        (text_data (codes "org.a11y.Status") ∷ text_data (codes "IsEnabled") ∷ text_data [] ∷ []))
        ≡ Err CallError.InvalidArgs }
    ensures all { asked
        (call_to [] (codes "/org/a11y/bus") (codes "org.freedesktop.DBus.Properties") (codes "GetAll")
        (text_data (codes "org.a11y.Status") ∷ [])) ≡ Ok Ask.AllProperties }
    ensures all_of_none { asked
        (call_to [] (codes "/org/a11y/bus") (codes "org.freedesktop.DBus.Properties") (codes "GetAll")
        (text_data (codes "org.a11y.Bus") ∷ [])) ≡ Ok Ask.NoProperties }
    ensures all_of_nobody { asked
        (call_to [] (codes "/org/a11y/bus") (codes "org.freedesktop.DBus.Properties") (codes "GetAll")
        (text_data [] ∷ [])) ≡ Err CallError.UnknownInterface }
    ensures set { asked
        (call_to [] (codes "/org/a11y/bus") (codes "org.freedesktop.DBus.Properties") (codes "Set")
        (text_data (codes "org.a11y.Status") ∷ text_data (codes "IsEnabled")
        ∷ variant_data boolean (boolean_data false) ∷ [])) ≡ Ok (Ask.Set Status.IsEnabled false) }
    ensures set_to_text { asked
        (call_to [] (codes "/org/a11y/bus") (codes "org.freedesktop.DBus.Properties") (codes "Set")
        (text_data (codes "org.a11y.Status") ∷ text_data (codes "IsEnabled") ∷ variant_data text (text_data []) ∷ []))
        ≡ Err CallError.InvalidArgs }
{}

/// The launcher's start; what an address and a change come to; and what is nobody's.
pub fn steps()
    ensures start { launcher_starts (begins (codes "a"))
        ≡ record {
          state = record { address = codes "a"; enabled = true; screen_reader = true; next = 3 };
          sent =
              record (call_to (codes "org.freedesktop.DBus") (codes "/org/freedesktop/DBus")
              (codes "org.freedesktop.DBus") (codes "Hello") []) { serial = 1 }
              ∷ record (call_to (codes "org.freedesktop.DBus") (codes "/org/freedesktop/DBus")
              (codes "org.freedesktop.DBus") (codes "RequestName")
              (text_data (codes "org.a11y.Bus") ∷ number_data u32 6 ∷ [])) { serial = 2 } ∷ [];
        } }
    ensures address { (launcher_takes (begins (codes "a"))
        (record (call_to [] launcher_path launcher (codes "GetAddress") [])
        { serial = 7; sender = Some (codes ":1.9") })).sent
        ≡ record (return_to (codes ":1.9") 7 (text_data (codes "a") ∷ [])) { serial = 1 } ∷ [] }
    ensures refused { (launcher_takes (begins (codes "a"))
        (record (call_to [] launcher_path launcher (codes "Get") []) { serial = 7; sender = Some (codes ":1.9") })).sent
        ≡ record (error_to (codes ":1.9") 7 (codes "UnknownMethod")) { serial = 1 } ∷ [] }
    ensures nobody { launcher_takes (begins (codes "a"))
        (record (call_to [] launcher_path launcher (codes "GetAddress") []) { serial = 7 })
        ≡ record { state = begins (codes "a"); sent = [] } }
    ensures no_call { launcher_takes (begins (codes "a"))
        (record (signal_of launcher_path launcher (codes "GetAddress") []) { serial = 7; sender = Some (codes ":1.9") })
        ≡ record { state = begins (codes "a"); sent = [] } }
    ensures set { launcher_takes (begins (codes "a"))
        (record (call_to [] launcher_path (codes "org.freedesktop.DBus.Properties") (codes "Set")
        (text_data status ∷ text_data (codes "ScreenReaderEnabled") ∷ as_variant false ∷ []))
        { serial = 7; sender = Some (codes ":1.9") })
        ≡ record {
          state = record { address = codes "a"; enabled = true; screen_reader = false; next = 3 };
          sent =
              record (changed Status.ScreenReaderEnabled false) { serial = 1 }
              ∷ record (return_to (codes ":1.9") 7 []) { serial = 2 } ∷ [];
        } }
    ensures set_again { launcher_takes (begins (codes "a"))
        (record (call_to [] launcher_path (codes "org.freedesktop.DBus.Properties") (codes "Set")
        (text_data status ∷ text_data (codes "IsEnabled") ∷ as_variant true ∷ []))
        { serial = 7; sender = Some (codes ":1.9") })
        ≡ record {
          state = record { address = codes "a"; enabled = true; screen_reader = true; next = 2 };
          sent = record (return_to (codes ":1.9") 7 []) { serial = 1 } ∷ [];
        } }
{}
