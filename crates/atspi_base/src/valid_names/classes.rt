//! Bytes by what they are in a name, and the walk from byte to byte that the forms allow.

ghost use Rattle.std.specs.Prelude.{◌≡◌};
ghost use Rattle.atspi_base.specs.valid_names.inner.Walks.{byte_class, next_states};

use super::elements::Form;

/// What each byte is: 1 a letter or `_`, 2 a digit, 3 `-`, 4 `.`, 5 `/`, 0 any other.
static CLASSES: [u8; 256] = [
    0, 0, 0, 0, 0, 0, 0, 0, 0, 0, 0, 0, 0, 0, 0, 0, 0, 0, 0, 0, 0, 0, 0, 0, 0, 0, 0, 0, 0, 0, 0, 0,
    0, 0, 0, 0, 0, 0, 0, 0, 0, 0, 0, 0, 0, 3, 4, 5, 2, 2, 2, 2, 2, 2, 2, 2, 2, 2, 0, 0, 0, 0, 0, 0,
    0, 1, 1, 1, 1, 1, 1, 1, 1, 1, 1, 1, 1, 1, 1, 1, 1, 1, 1, 1, 1, 1, 1, 1, 1, 1, 1, 0, 0, 0, 0, 1,
    0, 1, 1, 1, 1, 1, 1, 1, 1, 1, 1, 1, 1, 1, 1, 1, 1, 1, 1, 1, 1, 1, 1, 1, 1, 1, 1, 0, 0, 0, 0, 0,
    0, 0, 0, 0, 0, 0, 0, 0, 0, 0, 0, 0, 0, 0, 0, 0, 0, 0, 0, 0, 0, 0, 0, 0, 0, 0, 0, 0, 0, 0, 0, 0,
    0, 0, 0, 0, 0, 0, 0, 0, 0, 0, 0, 0, 0, 0, 0, 0, 0, 0, 0, 0, 0, 0, 0, 0, 0, 0, 0, 0, 0, 0, 0, 0,
    0, 0, 0, 0, 0, 0, 0, 0, 0, 0, 0, 0, 0, 0, 0, 0, 0, 0, 0, 0, 0, 0, 0, 0, 0, 0, 0, 0, 0, 0, 0, 0,
    0, 0, 0, 0, 0, 0, 0, 0, 0, 0, 0, 0, 0, 0, 0, 0, 0, 0, 0, 0, 0, 0, 0, 0, 0, 0, 0, 0, 0, 0, 0, 0,
];

/// What the byte is.
pub fn class_of(byte: u8) -> u8
    ensures { result ≡ byte_class byte }
{
    CLASSES[byte as usize]
}

// Where the walk goes at a byte of each class: from 0, before the first byte of an element; from 8, inside an element;
// from 16, behind a byte that may not stand where it does.
static PATH: [u8; 24] = [
    16, 8, 8, 16, 16, 16, 16, 16, 16, 8, 8, 16, 16, 0, 16, 16, 16, 16, 16, 16, 16, 16, 16, 16,
];

static INTERFACE: [u8; 24] = [
    16, 8, 16, 16, 16, 16, 16, 16, 16, 8, 8, 16, 0, 16, 16, 16, 16, 16, 16, 16, 16, 16, 16, 16,
];

static WELL_KNOWN: [u8; 24] = [
    16, 8, 16, 8, 16, 16, 16, 16, 16, 8, 8, 8, 0, 16, 16, 16, 16, 16, 16, 16, 16, 16, 16, 16,
];

static UNIQUE: [u8; 24] = [
    16, 8, 8, 8, 16, 16, 16, 16, 16, 8, 8, 8, 0, 16, 16, 16, 16, 16, 16, 16, 16, 16, 16, 16,
];

impl Form {
    /// The walk of the form.
    pub fn next_states(self) -> &'static [u8; 24]
        ensures { result.now ≡ next_states self }
    {
        match self {
            Form::Path => &PATH,
            Form::Interface => &INTERFACE,
            Form::WellKnown => &WELL_KNOWN,
            Form::Unique => &UNIQUE,
        }
    }
}
