//! Laws of what a bus hands on (D-Bus Specification, "Message Format" and "Message Bus Message Routing").

ghost use Rattle.atspi_bus_laws.specs.handed.Handing.{LettersAreSpelled};
ghost use Rattle.atspi_bus_laws.specs.handed.Naming.{NamesStay};
ghost use Rattle.atspi_bus_laws.specs.handed.Sizes.{OnlyListsAreLong};

/// Under a quota of at most 64 MiB each letter that waits on a down link is a message that its written bytes spell,
/// from the first world on and whatever the bus takes: a message that is passed on with its sender, and each of the
/// bus's own.
pub fn what_is_handed_on_is_spelled()
    ensures { LettersAreSpelled }
{}

/// The unique names of ends differ, those of ends that left too, nobody else has one, and a letter bears the name of
/// the end that it is from, or it is the bus's and bears the bus's: so it is in the first world, and it stays so
/// whoever joins, and whatever the bus takes.
pub fn letters_bear_the_names_of_their_senders()
    ensures { NamesStay }
{}

/// Of each message of the bus's own at most 4,096 bytes are written, unless its body is one list of texts: so nothing
/// but a list of names can be too long for the wire.
pub fn only_lists_are_long()
    ensures { OnlyListsAreLong }
{}
