//! Laws of messages and their bytes, over the definitions that the contracts of reading and writing cite.

ghost use Rattle.atspi_message.specs.Laws.{NoFrontOfAnother, IsReadAgain, HasOneReading};
ghost use Rattle.atspi_message.specs.Spellable.{ShortAreSpelled, SpelledStaySpellable, UnfitAreLong};

/// No message's bytes are a proper front of those of another.
pub fn no_front_of_another()
    ensures { NoFrontOfAnother }
{}

/// What is written of a message is a message's bytes: by what `Message::parse` ensures they are read as that message.
pub fn is_read_again()
    ensures { IsReadAgain }
{}

/// Bytes as long as they state are exactly one message, or have exactly one first fault.
pub fn has_one_reading()
    ensures { HasOneReading }
{}

/// A message that keeps the rules, and of which at most 64 MiB are written, is what its bytes spell: no other limit of
/// the wire is passed.
pub fn short_messages_are_spelled()
    ensures { ShortAreSpelled }
{}

/// Of a message that keeps the rules and passes a limit of the wire more than 64 MiB would be written.
pub fn unfit_messages_are_long()
    ensures { UnfitAreLong }
{}

/// A message that bytes spell keeps the rules under any sender that the bus may set.
pub fn senders_may_be_set()
    ensures { SpelledStaySpellable }
{}
