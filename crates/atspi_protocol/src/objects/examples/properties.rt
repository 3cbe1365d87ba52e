//! Properties.

ghost use Rattle.std.specs.Prelude.{◌≡◌, ◌∷◌, [], pos, codes};
ghost use Rattle.atspi_types.specs.Data.{text_data};
ghost use Rattle.atspi_protocol.specs.ends.Places.{reference};
ghost use Rattle.atspi_protocol.specs.members.Arguments.{int};
ghost use Rattle.atspi_protocol.specs.objects.Cases.{root, list, entry, grid, button, bare, value, to, hello};

use crate::members::ObjectProperty;

/// Each property of each interface.
pub fn values()
    ensures name { value entry ObjectProperty.Name ≡ text_data (codes "E") }
    ensures description { value entry ObjectProperty.Description ≡ text_data (codes "an entry") }
    ensures parent { value (bare 3 0) ObjectProperty.Parent ≡ to 1 }
    ensures root_parent { value root ObjectProperty.Parent
        ≡ reference (codes "org.a11y.atspi.Registry") (codes "/org/a11y/atspi/accessible/root") }
    ensures child_count { value grid ObjectProperty.ChildCount ≡ int (pos 5) }
    ensures no_child { value entry ObjectProperty.ChildCount ≡ int (pos 0) }
    ensures locale { value entry ObjectProperty.Locale ≡ text_data (codes "C") }
    ensures accessible_id { value button ObjectProperty.AccessibleId ≡ text_data (codes "12") }
    ensures toolkit_name { value root ObjectProperty.ToolkitName ≡ text_data (codes "atspi-replay") }
    ensures version { value root ObjectProperty.Version ≡ text_data (codes "1") }
    ensures atspi_version { value root ObjectProperty.AtspiVersion ≡ text_data (codes "2.1") }
    ensures id { value root ObjectProperty.Id ≡ int (pos 7) }
    ensures character_count { value entry ObjectProperty.CharacterCount ≡ int (pos 5) }
    ensures caret_offset { value entry ObjectProperty.CaretOffset ≡ int (pos 3) }
    ensures selected_children { value list ObjectProperty.NSelectedChildren ≡ int (pos 2) }
    ensures rows { value grid ObjectProperty.NRows ≡ int (pos 2) }
    ensures columns { value grid ObjectProperty.NColumns ≡ int (pos 2) }
    ensures actions { value button ObjectProperty.NActions ≡ int (pos 2) }
{}
