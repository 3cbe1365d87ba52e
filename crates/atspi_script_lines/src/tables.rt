//! Roles and states in a line, by their names.

ghost use Rattle.std.specs.Prelude.{◌≡◌, ℕ, List, Some, slice_get, MatchOption};
ghost use Rattle.atspi_tables.specs.States.{state_names};
ghost use Rattle.atspi_script_lines.specs.Words.{Leads, SpellsRole, role_name, state_name};

use crate::numbers::read_number;
use crate::words::next_word;
use atspi_tables::{role_of_word, state_of_name};

/// The role that a word names, or spells as a number.
fn read_role(word: &[u8]) -> Option<u32>
    ensures { MatchOption result ((role : ℕ) → SpellsRole role word.now → ⊥) (λ role. SpellsRole role word.now) }
{
    match role_of_word(word) {
        Some(role) => Some(role),
        None => read_number(word),
    }
}

/// The state that a word names.
fn read_state(word: &[u8]) -> Option<u8>
    ensures { MatchOption result ((state : ℕ) → slice_get state_names state ≡ Some word.now → ⊥)
        (λ state. slice_get state_names state ≡ Some word.now) }
{
    state_of_name(word)
}

/// The role in front, and what follows.
pub(crate) fn next_role(bytes: &[u8]) -> Option<(u32, &[u8])>
    ensures { MatchOption result ((role : ℕ) (rest : List ℕ) → Leads (role_name role) rest bytes.now → ⊥)
        (λ r. Leads (role_name r.0) r.1.now bytes.now) }
{
    let Some((word, rest)) = next_word(bytes) else {
        return None;
    };
    match read_role(word) {
        Some(role) => Some((role, rest)),
        None => None,
    }
}

/// The state in front, and what follows.
pub(crate) fn next_state(bytes: &[u8]) -> Option<(u8, &[u8])>
    ensures { MatchOption result ((state : ℕ) (rest : List ℕ) → Leads (state_name state) rest bytes.now → ⊥)
        (λ r. Leads (state_name r.0) r.1.now bytes.now) }
{
    let Some((word, rest)) = next_word(bytes) else {
        return None;
    };
    match read_state(word) {
        Some(state) => Some((state, rest)),
        None => None,
    }
}
