//! What the bytes of a signature are.

ghost use Rattle.std.specs.Prelude.{◌≡◌};
ghost use Rattle.atspi_types.specs.SignatureFaults.{token_of};
ghost use Rattle.atspi_types.specs.inner.OpenView.{token_view};

use crate::ty::Ty;

/// What a byte of a signature is.
#[derive(Drop)]
pub enum Token {
    /// A type of one byte.
    Code(Ty),
    Array,
    StructOpen,
    StructClose,
    EntryOpen,
    EntryClose,
    /// A file descriptor, which this bus does not carry.
    Descriptor,
    NoCode,
}

/// What the byte is.
#[tactic(auto, unfolding(crate::specs::SignatureFaults::token_of))]
pub fn read_token(byte: u8) -> Token
    ensures { token_view result ≡ token_of byte }
{
    match byte {
        b'y' => Token::Code(Ty::Byte),
        b'b' => Token::Code(Ty::Bool),
        b'n' => Token::Code(Ty::I16),
        b'q' => Token::Code(Ty::U16),
        b'i' => Token::Code(Ty::I32),
        b'u' => Token::Code(Ty::U32),
        b'x' => Token::Code(Ty::I64),
        b't' => Token::Code(Ty::U64),
        b'd' => Token::Code(Ty::Double),
        b's' => Token::Code(Ty::Text),
        b'o' => Token::Code(Ty::Path),
        b'g' => Token::Code(Ty::Sig),
        b'v' => Token::Code(Ty::Variant),
        b'a' => Token::Array,
        b'(' => Token::StructOpen,
        b')' => Token::StructClose,
        b'{' => Token::EntryOpen,
        b'}' => Token::EntryClose,
        b'h' => Token::Descriptor,
        _ => Token::NoCode,
    }
}
