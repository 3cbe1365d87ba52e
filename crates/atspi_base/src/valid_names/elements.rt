//! The elements that a name is made of.

ghost use Rattle.std.specs.Prelude.{◌≡◌};
ghost use Rattle.std.specs.List.{list_all};
ghost use Rattle.atspi_base.specs.valid_names.Elements.{may_begin, may_follow};
ghost use Rattle.atspi_base.specs.valid_names.inner.Walks.{separator_of};
ghost use Rattle.atspi_base.specs.valid_names.Elements as elements;

use super::classes::class_of;

/// Which bytes the elements of a kind of name have.
#[derive(Clone, Copy, Debug, PartialEq, Eq)]
pub enum Form {
    /// Letters, digits and `_`.
    Path,
    /// The same, and no digit first.
    Interface,
    /// The same and `-`, and no digit first.
    WellKnown,
    /// The same and `-`.
    Unique,
}

impl Form {
    /// What stands between elements.
    fn separator(self) -> u8
        ensures { result ≡ separator_of self }
    {
        match self {
            Form::Path => b'/',
            Form::Interface | Form::WellKnown | Form::Unique => b'.',
        }
    }

    /// Whether the byte may stand in an element, behind its first byte.
    fn lets_follow(self, byte: u8) -> bool
        ensures { result ≡ may_follow self byte }
    {
        match self {
            Form::Path | Form::Interface => is_plain(byte),
            Form::WellKnown | Form::Unique => is_plain(byte) || byte == b'-',
        }
    }

    /// Whether an element may begin with the byte.
    fn lets_begin(self, byte: u8) -> bool
        ensures { result ≡ may_begin self byte }
    {
        match self {
            Form::Path | Form::Unique => self.lets_follow(byte),
            Form::Interface | Form::WellKnown => self.lets_follow(byte) && !byte.is_ascii_digit(),
        }
    }
}

/// Whether the byte is a letter, a digit or `_`.
fn is_plain(byte: u8) -> bool
    ensures { result ≡ elements.is_plain byte }
{
    byte.is_ascii_alphanumeric() || byte == b'_'
}

/// Whether the bytes are elements of the form with its separator between any two.
pub fn are_elements(form: Form, bytes: &[u8]) -> bool
    ensures { result ≡ elements.are_elements form (separator_of form) bytes.now }
{
    let next = form.next_states();
    let mut state = 0u8;
    for byte in bytes {
        state = next[(state + class_of(*byte)) as usize];
    }
    state == 8
}

/// Whether the bytes are two or more elements of the form with a separator between any two.
#[tactic(auto, using(crate::proofs::OfValidNames::ElementLemmas::many_parts), unfolding(crate::specs::valid_names::Elements::are_two_or_more))]
pub fn are_two_or_more(form: Form, bytes: &[u8]) -> bool
    ensures { result ≡ elements.are_two_or_more form (separator_of form) bytes.now }
{
    are_elements(form, bytes) && bytes.contains(&form.separator())
}

/// Whether each byte may stand behind the first one of an element.
fn all_follow(form: Form, bytes: &[u8]) -> bool
    ensures { result ≡ list_all (may_follow form) bytes.now }
{
    bytes.iter().all(|byte| form.lets_follow(*byte))
}

/// Whether the bytes are one element of the form.
pub fn is_element(form: Form, bytes: &[u8]) -> bool
    ensures { result ≡ elements.is_element form bytes.now }
{
    !bytes.is_empty() && form.lets_begin(bytes[0]) && all_follow(form, &bytes[1..])
}
