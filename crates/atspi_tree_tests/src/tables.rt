//! The tables at their ends and at some names, as AT-SPI2 numbers them.

use crate::edits::number;
use atspi_tables::{role_name, role_of_word, role_word, state_name, state_of_name};

/// Roles and their names; words, and the roles that they name; and names of states, and their bits. What names none has
/// no number.
const NAMES: &str = "\
role 0 = invalid
role 7 = check box
role 43 = push button
role 67 = unknown
role 75 = application
role 101 = notification
role 116 = static
role 117 = unknown
role 4294967295 = unknown
word invalid = 0
word push-button = 43
word application = 75
word static = 116
word push button = none
word 43 = none
word  = none
state invalid = 0
state checked = 4
state enabled = 8
state focused = 12
state selected = 23
state sensitive = 24
state showing = 25
state visible = 30
state read-only = 43
state readonly = none";

/// Whether a table has what a row says.
fn has(row: &str) -> Option<bool> {
    let (asked, due) = row.split_once(" = ")?;
    let (kind, name) = asked.split_once(' ')?;
    match kind {
        "role" => Some(role_name(number(Some(name))) == due),
        "word" => Some(role_of_word(name.as_bytes()) == due.parse::<u32>().ok()),
        _ => Some(state_of_name(name.as_bytes()) == due.parse::<u8>().ok()),
    }
}

/// Whether a role has a word, which names it.
fn has_word(role: u32) -> bool {
    match role_word(role) {
        Some(word) => role_of_word(word.as_bytes()) == Some(role),
        None => false,
    }
}

/// Whether a state has a name, which is its own.
fn has_name(bit: u8) -> bool {
    match state_name(bit) {
        Some(name) => state_of_name(name.as_bytes()) == Some(bit),
        None => false,
    }
}

#[test]
fn names_of_roles_and_states(rt: HostRuntime) {
    for row in NAMES.lines() {
        assert!(rt; has(row) == Some(true), "{row}");
    }
    for role in 0..118 {
        assert!(rt; has_word(role) == (role < 117));
    }
    for bit in 0..45 {
        assert!(rt; has_name(bit) == (bit < 44));
    }
}
