//! The fields of a message's header that a reader asks about.

ghost use Rattle.std.specs.Prelude.{◌≡◌, bytes_eq};
ghost use Rattle.atspi_message_in_place.specs.View.{bytes_of, envelope_at};
ghost use Rattle.atspi_protocol.specs.news.NewsOf.{or_empty};

use atspi_message_in_place::MessageRef;

/// Whether a field is there and is the word, which is not empty.
pub(crate) fn is_word(field: Option<&str>, word: &str) -> bool
    ensures { result ≡ bytes_eq (or_empty (bytes_of field.entry)) word.now }
{
    match field {
        Some(field) => field == word,
        None => word.is_empty(),
    }
}

/// The bus name of the sender, or an empty text where none is told.
pub fn sender_of<'a>(m: &MessageRef<'a>) -> &'a str
    ensures { result.now ≡ or_empty (envelope_at m.now).sender }
{
    match m.sender {
        Some(sender) => sender,
        None => "",
    }
}
