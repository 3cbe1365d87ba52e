//! Rules that ask for another interface than the message has, which it need not be asked of.

ghost use Rattle.std.specs.Prelude.{◌≡◌};
ghost use Rattle.std.specs.List.{list_any};
ghost use Rattle.atspi_message_in_place.specs.View.{bytes_of, envelope_at};
ghost use Rattle.atspi_match.specs.RuleIndex as index;

use crate::{Condition, Rule};
use atspi_message_in_place::MessageRef;

/// Whether a field is there and is this text.
fn is_text(field: Option<&str>, text: &str) -> bool
    ensures { result ≡ index.is_text (bytes_of field.entry) text.now }
{
    match field {
        Some(field) => field == text,
        None => false,
    }
}

/// Whether a condition asks for another interface than that of the message.
fn asks_another(condition: &Condition, m: &MessageRef) -> bool
    ensures { result ≡ index.asks_another (envelope_at m.now) condition.now }
{
    match condition {
        Condition::Interface(name) => !is_text(m.interface, name.as_str()),
        _ => false,
    }
}

/// Whether one of the conditions asks for another interface than that of the message.
fn ask_another(conditions: &[Condition], m: &MessageRef) -> bool
    ensures { result ≡ list_any (index.asks_another (envelope_at m.now)) conditions.now }
{
    for condition in conditions {
        if asks_another(condition, m) {
            return true;
        }
    }
    false
}

/// Whether a rule asks for no interface, or for that of the message.
pub fn is_near(rule: &Rule, m: &MessageRef) -> bool
    ensures { result ≡ index.is_near (envelope_at m.now) rule.now }
{
    !ask_another(rule.conditions(), m)
}
