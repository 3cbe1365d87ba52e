//! The list of them.

ghost use Rattle.std.specs.Prelude.{◌≡◌, [], ◌∷◌, ◌++◌, chars, filter, length, not, take, IfOk, OnOk, OnErr};
ghost use Rattle.atspi_protocol.specs.exporting.Hearing as hearing;
ghost use Rattle.atspi_protocol.specs.exporting.Hearing.{is_heard, one_more};

use atspi_base::valid_names::BusName;
use atspi_base::{NoMemory, Text};
use atspi_protocol::ends::covers;
use std::alloc::Global;
use std::marker::Model;

/// The pairs of a listener's bus name and a pattern that count, in the order in which they came. Each call looks at
/// each pair at most twice.
#[derive(Drop)]
pub struct Heard {
    pairs: Vec<(BusName, Text)>,
}

impl Model for Heard {
    ghost use Rattle.std.specs.Prelude.{ℕ, List};

    ghost Value = { List (List ℕ × List ℕ) };

    ghost view = { λ h. h.pairs.items };
}

/// Whether a pair is that of this listener and this pattern.
fn is_pair(pair: &(BusName, Text), name: &str, pattern: &str) -> bool
    ensures { result ≡ hearing.is_pair (name.now, chars pattern.now) pair.now }
{
    name == pair.0.as_str() && pattern == pair.1.as_str()
}

impl Heard {
    /// No pair.
    pub fn new(alloc: Global) -> Heard
        ensures { result ≡ [] }
    {
        Heard {
            pairs: Vec::new(alloc),
        }
    }

    /// The pairs of a `Vec`, which are not copied.
    pub(crate) fn from_vec(pairs: Vec<(BusName, Text)>) -> Heard
        ensures { result ≡ pairs.items }
    {
        Heard { pairs }
    }

    /// The pairs in order.
    pub fn as_slice(&self) -> &[(BusName, Text)]
        ensures { result.now ≡ self.now }
    {
        &self.pairs
    }

    /// How many pairs there are.
    pub fn len(&self) -> usize
        ensures { result ≡ length self.now }
    {
        self.pairs.len()
    }

    /// Appends a pair. After want of memory all is as before.
    pub fn push(&mut self, name: BusName, pattern: Text) -> Result<(), NoMemory>
        ensures ok { OnOk result (self.new ≡ self.old ++ (name, pattern) ∷ []) }
        ensures err { OnErr result (self.new ≡ self.old) }
    {
        self.pairs.push((name, pattern))?;
        Ok(())
    }

    /// Keeps the first pairs, so many.
    pub fn truncate(&mut self, count: usize)
        ensures { self.new ≡ take count self.old }
    {
        self.pairs.truncate(count);
    }

    /// Whether some pattern covers an event with this name and minor word. It takes no memory.
    pub fn is_covered(&self, event: &str, minor: &str) -> bool
        ensures { result ≡ hearing.is_covered self.now event.now minor.now }
    {
        self.pairs
            .iter()
            .any(|pair| covers(pair.1.as_str(), event, minor))
    }

    /// Whether this pair counts.
    pub fn has(&self, name: &str, pattern: &str) -> bool
        ensures { result ≡ is_heard self.now (name.now, chars pattern.now) }
    {
        self.pairs.iter().any(|pair| is_pair(pair, name, pattern))
    }

    /// The pair counts from now on; answers whether it did not before. After want of memory all is as before.
    pub fn add(&mut self, name: BusName, pattern: Text) -> Result<bool, NoMemory>
        ensures heard { OnOk result (self.new ≡ (one_more self.old (name, pattern)).heard) }
        ensures new { IfOk result (λ new. new ≡ not (is_heard self.old (name, pattern))) }
        ensures err { OnErr result (self.new ≡ self.old) }
    {
        if self.has(name.as_str(), pattern.as_str()) {
            return Ok(false);
        }
        self.pairs.push((name, pattern))?;
        Ok(true)
    }

    /// The pair no longer counts; answers whether it did.
    pub fn remove(&mut self, name: &str, pattern: &str) -> bool
        ensures heard { self.new ≡ filter (λ q. not (hearing.is_pair (name.now, chars pattern.now) q)) self.old }
        ensures was { result ≡ is_heard self.old (name.now, chars pattern.now) }
    {
        let was = self.has(name, pattern);
        self.pairs.retain(|pair| !is_pair(pair, name, pattern));
        was
    }
}
