//! What the bytes of a signature are.

ghost use Rattle.std.specs.Prelude.{◌≡◌};
ghost use Rattle.atspi_types.specs.SignatureFaults.{token_of};
ghost use Rattle.atspi_marshal_in_place.specs.codes.inner.Marks.{code_of};

/// What a byte of a signature is.
#[derive(Clone, Copy)]
#[repr(u8)]
pub enum Code {
    /// A basic type.
    Basic,
    Variant,
    Array,
    StructOpen,
    StructClose,
    EntryOpen,
    EntryClose,
    /// A file descriptor, which this bus does not carry.
    Descriptor,
    NoCode,
}

/// What the byte is.
#[tactic(auto, unfolding(atspi_types::specs::SignatureFaults::token_of))]
pub fn read_code(byte: u8) -> Code
    ensures { result ≡ code_of (token_of byte) }
{
    match byte {
        b'y' => Code::Basic,
        b'b' => Code::Basic,
        b'n' => Code::Basic,
        b'q' => Code::Basic,
        b'i' => Code::Basic,
        b'u' => Code::Basic,
        b'x' => Code::Basic,
        b't' => Code::Basic,
        b'd' => Code::Basic,
        b's' => Code::Basic,
        b'o' => Code::Basic,
        b'g' => Code::Basic,
        b'v' => Code::Variant,
        b'a' => Code::Array,
        b'(' => Code::StructOpen,
        b')' => Code::StructClose,
        b'{' => Code::EntryOpen,
        b'}' => Code::EntryClose,
        b'h' => Code::Descriptor,
        _ => Code::NoCode,
    }
}
