//! What holds of a launcher, whatever it takes. Each law is the clause of a function without a body.

ghost use Rattle.atspi_launcher.specs.Laws.{AddressStays, SendsMessages};

/// Each message that it sends meets the rules of messages, where those that it took did.
pub fn sends_messages()
    ensures { SendsMessages }
{}

/// It tells the same address for ever.
pub fn address_stays()
    ensures { AddressStays }
{}
