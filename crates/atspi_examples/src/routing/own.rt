//! The bus's own messages, field by field.

ghost use Rattle.std.specs.Prelude.{◌≡◌, ◌∷◌, [], None, Some, codes};
ghost use Rattle.atspi_types.specs.Data.{text_data};
ghost use Rattle.atspi_match.specs.routing.OwnMessages.{signal, return_to, error_to, owner_changed, numbered};
ghost use Rattle.atspi_match.specs.routing.OwnMessages.{told_of_change};
ghost use Rattle.atspi_match.specs.routing.Room.{owners, one_, two_};
ghost use Rattle.atspi_examples.specs.routing.Heard.{own_of_kind};

/// A signal is of the bus's path and interface, to one or to all.
pub fn signals()
    ensures to_one { signal (codes "NameLost") (Some one_) (text_data (codes "a.b") ∷ [])
        ≡ record (own_of_kind 4) {
          path = Some (codes "/org/freedesktop/DBus");
          interface = Some (codes "org.freedesktop.DBus");
          member = Some (codes "NameLost");
          destination = Some one_;
          body = text_data (codes "a.b") ∷ [];
        } }
    ensures of_owners { owner_changed (codes "a.b") one_ two_
        ≡ record (own_of_kind 4) {
          path = Some (codes "/org/freedesktop/DBus");
          interface = Some (codes "org.freedesktop.DBus");
          member = Some (codes "NameOwnerChanged");
          body = text_data (codes "a.b") ∷ (text_data one_ ∷ (text_data two_ ∷ []));
        } }
{}

/// A return has the serial of the call and its values.
pub fn returns()
    ensures to_one { return_to (Some one_) 5 (text_data two_ ∷ [])
        ≡ record (own_of_kind 2) { reply = Some 5; destination = Some one_; body = text_data two_ ∷ [] } }
    ensures nameless { return_to None 6 [] ≡ record (own_of_kind 2) { reply = Some 6 } }
{}

/// An error has the serial of the call, and its last word as its text.
pub fn errors()
    ensures { error_to (Some one_) 5 (codes "Failed")
        ≡ record (own_of_kind 3) {
          error = Some (codes "org.freedesktop.DBus.Error.Failed");
          reply = Some 5;
          destination = Some one_;
          body = text_data (codes "Failed") ∷ [];
        } }
{}

/// Messages take numbers one after another, from the first on.
pub fn numbers()
    ensures none { numbered 7 [] ≡ [] }
    ensures two { numbered 7 (own_of_kind 2 ∷ (own_of_kind 3 ∷ []))
        ≡ record (own_of_kind 2) { serial = 7 } ∷ (record (own_of_kind 3) { serial = 8 } ∷ []) }
{}

/// Nothing is told of a name that stays with its owner, or with nobody.
pub fn told()
    ensures nobody { told_of_change owners (codes "a.b") None None ≡ [] }
    ensures same { told_of_change owners (codes "a.b") (Some 1) (Some 1) ≡ [] }
    ensures new { told_of_change owners (codes "e.f") None (Some 2)
        ≡ signal (codes "NameAcquired") (Some two_) (text_data (codes "e.f") ∷ [])
        ∷ (owner_changed (codes "e.f") [] two_ ∷ []) }
    ensures gone { told_of_change owners (codes "a.b") (Some 1) None
        ≡ signal (codes "NameLost") (Some one_) (text_data (codes "a.b") ∷ [])
        ∷ (owner_changed (codes "a.b") one_ [] ∷ []) }
{}
