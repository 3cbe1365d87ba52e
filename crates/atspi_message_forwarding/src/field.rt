//! The fields of a header that are names.

ghost use Rattle.std.specs.Prelude.{◌≡◌};
ghost use Rattle.atspi_message.specs.Codes.{number_of};
ghost use Rattle.atspi_message_forwarding.specs.inner.Fields.{code_for};

/// A field that is a name and a text (D-Bus Specification, "Header Fields").
#[derive(Clone, Copy)]
pub enum NameField {
    Interface,
    Member,
    Error,
    Destination,
    Sender,
}

/// The code of a field.
pub fn number_of(field: NameField) -> u8
    ensures { result ≡ number_of (code_for field) }
{
    match field {
        NameField::Interface => 2,
        NameField::Member => 3,
        NameField::Error => 4,
        NameField::Destination => 6,
        NameField::Sender => 7,
    }
}
