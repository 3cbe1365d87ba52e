//! Text without U+0000.

ghost use Rattle.std.specs.Prelude.{◌≡◌, ◌<◌, ◌^◌, ◌↔◌, ℕ, List, length, IfOk, IsTrue, chars, string_bytes};
ghost use Rattle.std.specs.Prelude.{encode_utf8_all};
ghost use Rattle.atspi_base.specs.Text.{HasNoZero, bytes_before_zero};
ghost use Rattle.atspi_base.specs.ReadsText.{ReadsText, PlaceBelow, ReadsStr, StrPlaceBelow};
ghost use Rattle.atspi_base.specs.declared.text.TextFault.TheVariants.{NoMemory};

use std::alloc::{AllocError, Global};
use std::marker::Model;
use thiserror::Error;

/// Why bytes are no text. A place counts bytes from 0.
#[derive(Clone, Copy, Debug, PartialEq, Eq, Error)]
pub enum TextFault {
    #[error("a zero byte at {0}")]
    Zero(u32),
    #[error("no UTF-8 at {0}")]
    Utf8(u32),
    #[error("out of memory")]
    NoMemory,
}

impl From<AllocError> for TextFault {
    ghost from_gives = { λ _ e. e ≡ NoMemory };

    fn from(_e: AllocError) -> TextFault {
        TextFault::NoMemory
    }
}

/// How many bytes stand before the first zero byte, or all of them.
fn before_zero(bytes: &[u8]) -> usize
    ensures { result ≡ bytes_before_zero bytes.now }
{
    for i in 0..bytes.len() {
        if bytes[i] == 0 {
            return i;
        }
    }
    bytes.len()
}

/// The text that the bytes spell in UTF-8, where they lie. Refused at the first bad byte: `Zero` where it is a zero
/// byte, `Utf8` where it begins a sequence that is not UTF-8; never for want of memory.
#[tactic(auto, unfolding(crate::specs::ReadsText::text_in))]
pub fn read_str(bytes: &[u8]) -> Result<&str, TextFault>
    requires { length bytes.now < 2 ^ 32 }
    ensures text { ReadsStr result bytes.now }
    ensures lies { IfOk result (λ text. text.now ≡ bytes.now) }
    ensures place { StrPlaceBelow result (length bytes.now) }
{
    let before = before_zero(bytes);
    match std::str::from_utf8(bytes) {
        Ok(text) => {
            if before < bytes.len() {
                return Err(TextFault::Zero(before as u32));
            }
            Ok(text)
        }
        Err(e) => {
            let valid = e.valid_up_to();
            if before < valid {
                return Err(TextFault::Zero(before as u32));
            }
            Err(TextFault::Utf8(valid as u32))
        }
    }
}

/// How many characters the text has.
fn count_chars(text: &str) -> usize
    ensures { result ≡ length (chars text.now) }
{
    text.chars().count()
}

/// An owned text without U+0000, of fewer than 4,294,967,296 bytes. Contracts see the list of its characters.
#[derive(Drop)]
pub struct Text {
    string: String,
}

impl Model for Text {
    ghost use Rattle.std.specs.Prelude.{ℕ, List, chars, string_bytes};
    ghost use Rattle.atspi_base.specs.Text.{IsTextBytes};

    ghost Value = { List ℕ };

    ghost view = { λ t. chars (string_bytes t.string) };

    ghost invariant = { λ t. IsTextBytes (string_bytes t.string) };
}

impl Text {
    /// The text that the bytes spell in UTF-8. Refused at the first bad byte: `Zero` where it is a zero byte, `Utf8`
    /// where it begins a sequence that is not UTF-8.
    pub fn read(alloc: Global, bytes: &[u8]) -> Result<Text, TextFault>
        requires { length bytes.now < 2 ^ 32 }
        ensures text { ReadsText result bytes.now }
        ensures place { PlaceBelow result (length bytes.now) }
    {
        let text = read_str(bytes)?;
        Ok(Text {
            string: String::from_str(alloc, text)?,
        })
    }

    /// The text of a `str` without a zero byte, which is not looked at once more.
    pub fn of(alloc: Global, text: &str) -> Result<Text, crate::NoMemory>
        requires no_zero { HasNoZero text.now }
        requires counted { length text.now < 2 ^ 32 }
        ensures { IfOk result (λ t. t ≡ chars text.now) }
    {
        Ok(Text {
            string: String::from_str(alloc, text)?,
        })
    }

    /// The text as a `str`.
    pub fn as_str(&self) -> &str
        ensures spelled { result.now ≡ encode_utf8_all self.now }
        ensures chars { chars result.now ≡ self.now }
        ensures no_zero { HasNoZero result.now }
        ensures counted { length result.now < 2 ^ 32 }
    {
        &self.string
    }

    /// How many characters the text has.
    pub fn count(&self) -> u32
        ensures { result ≡ length self.now }
    {
        count_chars(&self.string) as u32
    }

    /// Whether the two texts have the same characters.
    pub fn is(&self, other: &Text) -> bool
        ensures { IsTrue result ↔ (self.now ≡ other.now) }
    {
        self.string == other.string
    }

    /// An equal text.
    pub fn copy(&self, alloc: Global) -> Result<Text, crate::NoMemory>
        ensures { IfOk result (λ t. t ≡ self.now) }
    {
        Ok(Text {
            string: String::from_str(alloc, &self.string)?,
        })
    }
}
