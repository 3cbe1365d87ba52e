//! The keys of match rules.

ghost use Rattle.std.specs.Prelude.{◌≡◌, ◌<◌, ◌≤◌, bytes_eq, length, IfSome};
ghost use Rattle.atspi_match.specs.inner.Keys as keys;

/// The key of a condition.
#[derive(Clone, Copy, Debug, PartialEq, Eq)]
pub(crate) enum Key {
    Kind,
    Sender,
    Interface,
    Member,
    Path,
    PathNamespace,
    Destination,
    Arg(u8),
    ArgPath(u8),
    Arg0Namespace,
    Eavesdrop,
}

impl Key {
    /// The place of the key among the keys.
    pub fn rank(self) -> u16
        ensures { result ≡ keys.key_rank self }
    {
        match self {
            Key::Kind => 0,
            Key::Sender => 1,
            Key::Interface => 2,
            Key::Member => 3,
            Key::Path => 4,
            Key::PathNamespace => 5,
            Key::Destination => 6,
            Key::Arg(index) => 7 + u16::from(index),
            Key::ArgPath(index) => 71 + u16::from(index),
            Key::Arg0Namespace => 135,
            Key::Eavesdrop => 136,
        }
    }
}

/// Whether the bytes are just this.
pub(crate) fn is(bytes: &[u8], text: &[u8]) -> bool
    ensures { result ≡ bytes_eq bytes.now text.now }
{
    bytes == text
}

/// The key that has a name of its own.
#[tactic(auto, unfolding(crate::specs::inner::Keys::named_key))]
fn named_key(bytes: &[u8]) -> Option<Key>
    ensures { result ≡ keys.named_key bytes.now }
{
    if is(bytes, b"type") {
        Some(Key::Kind)
    } else if is(bytes, b"sender") {
        Some(Key::Sender)
    } else if is(bytes, b"interface") {
        Some(Key::Interface)
    } else if is(bytes, b"member") {
        Some(Key::Member)
    } else if is(bytes, b"path") {
        Some(Key::Path)
    } else if is(bytes, b"path_namespace") {
        Some(Key::PathNamespace)
    } else if is(bytes, b"destination") {
        Some(Key::Destination)
    } else if is(bytes, b"arg0namespace") {
        Some(Key::Arg0Namespace)
    } else if is(bytes, b"eavesdrop") {
        Some(Key::Eavesdrop)
    } else {
        None
    }
}

/// The digit that the byte at the place is.
#[tactic(auto, unfolding(crate::specs::inner::Keys::digit_at))]
fn digit_at(bytes: &[u8], at: usize) -> Option<u8>
    ensures digit { result ≡ keys.digit_at bytes.now at }
    ensures small { IfSome result (λ digit. digit < 10) }
    ensures within { IfSome result (λ _. at < length bytes.now) }
{
    if at < bytes.len() && bytes[at].is_ascii_digit() {
        Some(bytes[at] - b'0')
    } else {
        None
    }
}

/// The number of an argument, of one digit or two, and how many digits there are. No leading zero.
#[tactic(auto, unfolding(crate::specs::inner::Keys::index_in))]
fn index_in(bytes: &[u8]) -> Option<(u8, usize)>
    ensures number { result ≡ keys.index_in bytes.now }
    ensures within { IfSome result (λ n. n.1 ≤ length bytes.now) }
{
    let first = digit_at(bytes, 0)?;
    let Some(second) = digit_at(bytes, 1) else {
        return Some((first, 1));
    };
    if first == 0 || first > 6 || (first == 6 && second > 3) {
        return None;
    }
    Some((10 * first + second, 2))
}

/// The key that the bytes behind `arg` make.
#[tactic(auto, unfolding(crate::specs::inner::Keys::arg_key))]
fn arg_key(bytes: &[u8]) -> Option<Key>
    ensures { result ≡ keys.arg_key bytes.now }
{
    let (index, digits) = index_in(bytes)?;
    if bytes.len() == digits {
        Some(Key::Arg(index))
    } else if is(&bytes[digits..], b"path") {
        Some(Key::ArgPath(index))
    } else {
        None
    }
}

/// The key that the bytes are.
#[tactic(auto, unfolding(crate::specs::inner::Keys::key_in))]
pub(crate) fn read_key(bytes: &[u8]) -> Option<Key>
    ensures { result ≡ keys.key_in bytes.now }
{
    if let Some(key) = named_key(bytes) {
        return Some(key);
    }
    if bytes.len() < 3 || !is(&bytes[..3], b"arg") {
        return None;
    }
    arg_key(&bytes[3..])
}
