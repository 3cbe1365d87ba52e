//! The fields of a header that have a meaning.

ghost use Rattle.std.specs.Prelude.{◌≡◌};
ghost use Rattle.atspi_message.specs.Codes.{code_of, letter_of, number_of};

/// A known field of a header (D-Bus Specification, "Header Fields").
#[derive(Clone, Copy, Debug, PartialEq, Eq)]
pub enum Code {
    Path,
    Interface,
    Member,
    Error,
    Reply,
    Destination,
    Sender,
    Signature,
    Descriptors,
}

/// The known field of a code.
pub fn code_of(byte: u8) -> Option<Code>
    ensures { result ≡ code_of byte }
{
    match byte {
        1 => Some(Code::Path),
        2 => Some(Code::Interface),
        3 => Some(Code::Member),
        4 => Some(Code::Error),
        5 => Some(Code::Reply),
        6 => Some(Code::Destination),
        7 => Some(Code::Sender),
        8 => Some(Code::Signature),
        9 => Some(Code::Descriptors),
        _ => None,
    }
}

/// The code of the field's type.
pub fn letter_of(code: Code) -> u8
    ensures { result ≡ letter_of code }
{
    match code {
        Code::Path => b'o',
        Code::Interface | Code::Member | Code::Error | Code::Destination | Code::Sender => b's',
        Code::Reply | Code::Descriptors => b'u',
        Code::Signature => b'g',
    }
}

/// The code of a field.
pub fn number_of(code: Code) -> u8
    ensures { result ≡ number_of code }
{
    match code {
        Code::Path => 1,
        Code::Interface => 2,
        Code::Member => 3,
        Code::Error => 4,
        Code::Reply => 5,
        Code::Destination => 6,
        Code::Sender => 7,
        Code::Signature => 8,
        Code::Descriptors => 9,
    }
}
