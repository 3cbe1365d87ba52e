//! The states by bit, and each one's name.

ghost use Rattle.std.specs.Prelude.{◌≡◌, bytes_eq, length, map, position, slice_get, IfSome, Some};
ghost use Rattle.std.specs.Option.{option_copied};
ghost use Rattle.atspi_tables.specs.States.{state_names};

use crate::places::{name_at, place_of};

const NAMES: [&str; 44] = [
    "invalid",
    "active",
    "armed",
    "busy",
    "checked",
    "collapsed",
    "defunct",
    "editable",
    "enabled",
    "expandable",
    "expanded",
    "focusable",
    "focused",
    "has-tooltip",
    "horizontal",
    "iconified",
    "modal",
    "multi-line",
    "multiselectable",
    "opaque",
    "pressed",
    "resizable",
    "selectable",
    "selected",
    "sensitive",
    "showing",
    "single-line",
    "stale",
    "transient",
    "vertical",
    "visible",
    "manages-descendants",
    "indeterminate",
    "required",
    "truncated",
    "animated",
    "invalid-entry",
    "supports-autocompletion",
    "selectable-text",
    "is-default",
    "visited",
    "checkable",
    "has-popup",
    "read-only",
];

/// The names, by bit.
#[tactic(auto, unfolding(crate::specs::States::state_names))]
fn names() -> &'static [&'static str]
    ensures names { map (λ name. name.now) result.now ≡ state_names }
    ensures count { length result.now ≡ 44 }
{
    &NAMES
}

/// The name of a state. None above bit 43.
pub fn state_name(bit: u8) -> Option<&'static str>
    ensures { option_copied result ≡ slice_get state_names bit }
{
    name_at(names(), bit as usize)
}

/// The least bit with this name, where there is one.
pub fn state_of_name(name: &[u8]) -> Option<u8>
    ensures first { result ≡ position (λ n. bytes_eq n name.now) state_names }
    ensures found { IfSome result (λ bit. slice_get state_names bit ≡ Some name.now) }
{
    place_of(names(), name).map(|bit| bit as u8)
}
