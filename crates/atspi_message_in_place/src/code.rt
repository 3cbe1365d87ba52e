//! The fields of a header that have a meaning.

ghost use Rattle.std.specs.Prelude.{◌≡◌};
ghost use Rattle.atspi_message.specs.Codes.{letter_of};
ghost use Rattle.atspi_message.specs.inner.Reading.{name_reason};
ghost use Rattle.atspi_message_in_place.specs.inner.Codes.{name_code, field_code};

/// A field that is a name (D-Bus Specification, "Header Fields").
#[derive(Clone, Copy)]
pub enum NameCode {
    Path,
    Interface,
    Member,
    Error,
    Destination,
    Sender,
}

/// A known field of a header.
#[derive(Clone, Copy)]
pub enum Code {
    Name(NameCode),
    Reply,
    Signature,
    Descriptors,
}

/// The code of a name's type.
#[inline(always)]
fn name_letter(code: NameCode) -> u8
    ensures { result ≡ letter_of (name_code code) }
{
    match code {
        NameCode::Path => b'o',
        NameCode::Interface => b's',
        NameCode::Member => b's',
        NameCode::Error => b's',
        NameCode::Destination => b's',
        NameCode::Sender => b's',
    }
}

/// The code of the field's type.
#[inline(always)]
pub fn letter_of(code: Code) -> u8
    ensures { result ≡ letter_of (field_code code) }
{
    match code {
        Code::Name(code) => name_letter(code),
        Code::Reply => b'u',
        Code::Signature => b'g',
        Code::Descriptors => b'u',
    }
}

/// The reason of a name outside its rule.
#[inline(always)]
pub fn reason_of(code: NameCode) -> u8
    ensures { result ≡ name_reason (name_code code) }
{
    match code {
        NameCode::Path => 15,
        NameCode::Interface => 31,
        NameCode::Member => 31,
        NameCode::Error => 31,
        NameCode::Destination => 31,
        NameCode::Sender => 31,
    }
}
