//! Pairs that are looked up in a step.

ghost use Rattle.std.specs.Prelude.{◌≡◌, [], ◌∷◌, ◌++◌, IfOk, OnOk, if◌then◌else◌};
ghost use Rattle.atspi_protocol.specs.exporting.Hearing.{firsts, is_heard};
ghost use Rattle.atspi_app_known.specs.hearing.Lent.{lent_pair, lent_pairs};

use crate::hearing::PairRef;
use atspi_base::NoMemory;
use indexmap::IndexSet;
use std::alloc::Global;
use std::marker::Model;

/// Pairs, each once, in the order in which they came. Whether one is there is found without a walk.
#[derive(Drop)]
pub(crate) struct PairSet<'a> {
    pairs: IndexSet<PairRef<'a>>,
}

impl<'a> Model for PairSet<'a> {
    ghost use Rattle.std.specs.Prelude.{ℕ, List};
    ghost use Rattle.atspi_app_known.specs.hearing.Lent.{lent_pairs};

    ghost Value = { List (List ℕ × List ℕ) };

    ghost view = { λ s. lent_pairs s.pairs.keys };
}

impl<'a> PairSet<'a> {
    /// None.
    pub(crate) fn new(alloc: Global) -> PairSet<'a>
        ensures { result ≡ [] }
    {
        PairSet {
            pairs: IndexSet::new(alloc),
        }
    }

    /// One more, if it is not there.
    pub(crate) fn put(&mut self, pair: PairRef<'a>) -> Result<(), NoMemory>
        ensures { OnOk result
            (self.new
            ≡ (if is_heard self.old (lent_pair pair.entry) then self.old
            else self.old ++ lent_pair pair.entry ∷ [])) }
    {
        self.pairs.insert(pair)?;
        Ok(())
    }

    /// Whether it is there.
    pub(crate) fn has(&self, pair: PairRef<'_>) -> bool
        ensures { result ≡ is_heard self.now (lent_pair pair.entry) }
    {
        self.pairs.contains(&pair)
    }

    /// The pairs in order.
    pub(crate) fn as_slice(&self) -> &[PairRef<'a>]
        ensures { lent_pairs result.now ≡ self.now }
    {
        self.pairs.as_slice()
    }
}

/// Pairs, each once, where it stands first.
pub(crate) fn set_of<'a>(alloc: Global, pairs: &[PairRef<'a>]) -> Result<PairSet<'a>, NoMemory>
    ensures { IfOk result (λ set. set ≡ firsts (lent_pairs pairs.now)) }
{
    let mut set = PairSet::new(alloc);
    for pair in pairs {
        set.put(*pair)?;
    }
    Ok(set)
}
