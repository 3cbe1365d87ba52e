//! The signals of the registry that change which pairs count.

ghost use Rattle.std.specs.Prelude.{◌≡◌, ℕ, List};
ghost use Rattle.atspi_message_in_place.specs.View.{bytes_of, envelope_at};
ghost use Rattle.atspi_protocol.specs.members.Asked as asked;
ghost use Rattle.atspi_protocol.specs.exporting.Hearing as hearing;
ghost use Rattle.atspi_app_known.specs.hearing.Changes.{changed_by};

use crate::hearing::pair::first_pair;
use crate::hearing::pair_ref::PairRef;
use atspi_message_in_place::MessageRef;

/// What a message says of listeners.
#[derive(Clone, Copy)]
pub enum News<'a> {
    /// A pair counts from now on.
    Registered(PairRef<'a>),
    /// It no longer counts.
    Deregistered(PairRef<'a>),
    /// Nothing.
    Nothing,
}

/// Whether a field is there and is the text.
fn is_text(field: Option<&str>, text: &str) -> bool
    ensures { result ≡ asked.is_text (bytes_of field.entry) text.now }
{
    match field {
        Some(field) => field == text,
        None => false,
    }
}

/// What a signal of the registry's interface says of listeners, whoever sends it (AT-SPI2's interface file Registry):
/// the arguments begin with the listener's bus name and the pattern; further ones say nothing.
pub fn news_in<'a>(m: &MessageRef<'a>) -> News<'a>
    ensures { (heard : List (List ℕ × List ℕ))
        → hearing.heard_after heard (envelope_at m.now) ≡ changed_by result heard }
{
    if !is_text(m.interface, "org.a11y.atspi.Registry") {
        return News::Nothing;
    }
    if is_text(m.member, "EventListenerRegistered") {
        return match first_pair(m.body) {
            Some(pair) => News::Registered(pair),
            None => News::Nothing,
        };
    }
    if is_text(m.member, "EventListenerDeregistered") {
        return match first_pair(m.body) {
            Some(pair) => News::Deregistered(pair),
            None => News::Nothing,
        };
    }
    News::Nothing
}
