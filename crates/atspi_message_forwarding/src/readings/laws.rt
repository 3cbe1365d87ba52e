//! Laws of readings (D-Bus Specification, "Marshaling (Wire Format)" and "Message Format").

ghost use Rattle.atspi_message_forwarding.specs.readings.Readings.{ValuesHaveOneReading, MessagesAreAskedFor};
ghost use Rattle.atspi_message_forwarding.specs.readings.Readings.{WhatIsWrittenIsRead, PlacesCountByEights};

/// At any place in any bytes exactly one item of a type is spelled, or exactly one fault is the first, and never both.
/// So what `decode` answers is told by the bytes alone, but for want of memory.
pub fn values_have_one_reading()
    ensures { ValuesHaveOneReading }
{}

/// A message's bytes have a sound front that states their length, which is what `Message::parse` asks for.
pub fn messages_are_asked_for()
    ensures { MessagesAreAskedFor }
{}

/// What `Message::write` wrote is what `Message::parse` asks for, and is that message and no other: reading it gives
/// the message back.
pub fn what_is_written_is_read()
    ensures { WhatIsWrittenIsRead }
{}

/// How values are spelled depends on the place where they begin only modulo 8, the greatest alignment: bytes that spell
/// values at a multiple of 8 spell them at each other one.
pub fn places_count_by_eights()
    ensures { PlacesCountByEights }
{}
