//! The connections that are to be closed, in the order of the causes.

ghost use Rattle.std.specs.Prelude.{◌≡◌, ◌==◌, not, ℕ, List, false, [], ◌∷◌, ◌++◌, filter, MatchOption, IfOk, OnOk};
ghost use Rattle.std.specs.Prelude.{OnErr};
ghost use Rattle.atspi_match.specs.routing.Queues.{is_due};
ghost use Rattle.atspi_bus_queues.specs.Once.{AreOnce};
ghost use Rattle.atspi_match.specs.declared.routing.closing.Why.{Why};

use atspi_base::NoMemory;
use atspi_match::routing::Why;
use std::alloc::Global;
use std::collections::{BTreeSet, VecDeque};
use std::marker::Model;

/// The connections that are to be closed, each once and with its reason, in the order of the causes.
#[derive(Drop)]
pub struct DueList {
    list: VecDeque<(u32, Why)>,
    /// The connections of the list.
    conns: BTreeSet<u32>,
}

impl Model for DueList {
    ghost use Rattle.std.specs.Prelude.{ℕ, List};
    ghost use Rattle.std.specs.Coded.{coded_ℕ, coded×, coded_list};
    ghost use Rattle.atspi_match.specs.contracts.routing.closing.Why as why;
    ghost use Rattle.atspi_match.specs.declared.routing.closing.Why.{Why};
    ghost use Rattle.atspi_bus_queues.specs.DueList.{IsDueList};

    ghost Value = { List (ℕ × Why) };

    ghost coded = { coded_list (coded× coded_ℕ why.the_row.coded) };

    ghost view = { λ d. d.list.items };

    ghost invariant = { λ d. IsDueList d.list.items d.conns };
}

impl DueList {
    /// Nobody.
    pub fn new(alloc: Global) -> DueList
        ensures { result ≡ [] }
    {
        DueList {
            list: VecDeque::new(alloc),
            conns: BTreeSet::new(alloc),
        }
    }

    /// An equal list.
    pub fn copy(&self) -> Result<DueList, NoMemory>
        ensures { IfOk result (λ copy. copy ≡ self.now) }
    {
        Ok(DueList {
            list: self.list.clone()?,
            conns: self.conns.clone()?,
        })
    }

    /// Whether a connection is to be closed.
    pub fn has(&self, conn: u32) -> bool
        ensures { result ≡ is_due conn self.now }
    {
        self.conns.contains(&conn)
    }

    /// The first that is to be closed.
    pub fn first(&self) -> Option<(u32, Why)>
        ensures { MatchOption result (self.now ≡ []) (λ first. (rest : List (ℕ × Why)) × (self.now ≡ first ∷ rest)) }
    {
        self.list.front().copied()
    }

    /// A connection is to be closed that was not before. After want of memory all is as before.
    pub fn add(&mut self, conn: u32, why: Why) -> Result<(), NoMemory>
        requires { is_due conn self.old ≡ false }
        ensures ok { OnOk result (self.new ≡ self.old ++ (conn, why) ∷ []) }
        ensures err { OnErr result (self.new ≡ self.old) }
    {
        self.list.reserve(1)?;
        self.conns.insert(conn)?;
        self.list.push_back_reserved((conn, why));
        Ok(())
    }

    /// A connection is not to be closed any more.
    pub fn remove(&mut self, conn: u32)
        ensures { self.new ≡ filter (λ (d : ℕ × Why). not (d.0 == conn)) self.old }
    {
        if self.conns.remove(&conn) {
            take_out(&mut self.list, conn);
        }
    }
}

/// Takes a connection out of the list, in which each stands once: most often it is the first.
fn take_out(list: &mut VecDeque<(u32, Why)>, conn: u32)
    requires { AreOnce list.old.items }
    ensures { list.new.items ≡ filter (λ (d : ℕ × Why). not (d.0 == conn)) list.old.items }
{
    match list.front() {
        Some(first) if first.0 == conn => {
            let _ = list.pop_front();
        }
        _ => list.retain(|d| d.0 != conn),
    }
}
