//! The pairs of listeners.

ghost use Rattle.std.specs.Prelude.{◌≡◌, [], ◌∷◌, ◌++◌, bytes_eq, chars, take, OnOk, OnErr};
ghost use Rattle.atspi_protocol.specs.registering.RegistryState as state;
ghost use Rattle.atspi_protocol.specs.registering.RegistryState.{has_pair, without_pair, pairs_without};
ghost use Rattle.atspi_protocol.specs.registering.Told.{is_asked_for};

use atspi_base::valid_names::BusName;
use atspi_base::{NoMemory, Text};
use atspi_protocol::ends::covers;
use std::alloc::Global;
use std::marker::Model;

/// The pairs of a listener's bus name and a pattern, in order of arrival. A question or a removal looks at each pair
/// once.
#[derive(Drop)]
pub struct Pairs {
    items: Vec<(BusName, Text)>,
}

impl Model for Pairs {
    ghost use Rattle.std.specs.Prelude.{ℕ, List};

    ghost Value = { List (List ℕ × List ℕ) };

    ghost view = { λ p. p.items.items };
}

/// Whether the pair is the listener's.
fn is_of(pair: &(BusName, Text), name: &str) -> bool
    ensures { result ≡ state.is_of name.now pair.now }
{
    pair.0.as_str() == name
}

/// Whether the two texts are the same.
fn is_same(text: &str, other: &str) -> bool
    ensures { result ≡ bytes_eq text.now other.now }
{
    text == other
}

/// Whether the text has these characters.
fn is_text(text: &Text, other: &str) -> bool
    ensures { result ≡ bytes_eq text.now (chars other.now) }
{
    is_same(text.as_str(), other)
}

/// Whether it is the pair of the listener and the pattern.
fn is_pair(pair: &(BusName, Text), name: &str, pattern: &str) -> bool
    ensures { result ≡ state.is_pair name.now (chars pattern.now) pair.now }
{
    is_of(pair, name) && is_text(&pair.1, pattern)
}

impl Pairs {
    /// No pair.
    pub fn new(alloc: Global) -> Pairs
        ensures { result ≡ [] }
    {
        Pairs {
            items: Vec::new(alloc),
        }
    }

    /// The pairs in order.
    pub fn as_slice(&self) -> &[(BusName, Text)]
        ensures { result.now ≡ self.now }
    {
        &self.items
    }

    /// Whether the listener has a pair with the pattern.
    pub fn has(&self, name: &str, pattern: &str) -> bool
        ensures { result ≡ has_pair self.now name.now (chars pattern.now) }
    {
        self.items.iter().any(|pair| is_pair(pair, name, pattern))
    }

    /// Whether some pair asks for news of children with this minor word.
    pub fn asks_for(&self, minor: &str) -> bool
        ensures { result ≡ is_asked_for self.now minor.now }
    {
        self.items
            .iter()
            .any(|pair| covers(pair.1.as_str(), "children-changed", minor))
    }

    /// Appends a pair. After want of memory all is as before.
    pub fn push(&mut self, name: BusName, pattern: Text) -> Result<(), NoMemory>
        ensures ok { OnOk result (self.new ≡ self.old ++ (name, pattern) ∷ []) }
        ensures err { OnErr result (self.new ≡ self.old) }
    {
        self.items.push((name, pattern))?;
        Ok(())
    }

    /// Keeps the first pairs, so many.
    pub fn truncate(&mut self, count: usize)
        ensures { self.new ≡ take count self.old }
    {
        self.items.truncate(count);
    }

    /// The listener no longer has a pair with the pattern.
    pub fn remove(&mut self, name: &str, pattern: &str)
        ensures { self.new ≡ without_pair self.old name.now (chars pattern.now) }
    {
        self.items.retain(|pair| !is_pair(pair, name, pattern));
    }

    /// The listener no longer has any pair.
    pub fn drop_name(&mut self, name: &str)
        ensures { self.new ≡ pairs_without self.old name.now }
    {
        self.items.retain(|pair| !is_of(pair, name));
    }
}
