//! A bus as its callers see it.

ghost use Rattle.std.specs.Prelude.{◌≡◌, ◌+◌, ◌<◌, ◌≤◌, ◌↔◌, ◌++◌, ℕ, min, List, [], length, map, drop, All, Option};
ghost use Rattle.std.specs.Prelude.{IfNone};
ghost use Rattle.std.specs.Prelude.{IfOk, IsErrOf, OnOk, OnErr, option_to_list};
ghost use Rattle.atspi_message.specs.Envelope.{envelope_of};
ghost use Rattle.atspi_message.specs.Rules.{MeetsRules};
ghost use Rattle.atspi_message_in_place.specs.View.{envelope_at};
ghost use Rattle.atspi_match.specs.declared.condition.Condition.{Condition};
ghost use Rattle.atspi_match.specs.routing.Laws.{IsWithinQuota};
ghost use Rattle.atspi_match.specs.routing.Queues.{queue_of, empty_bus, joins, takes, leaves};
ghost use Rattle.atspi_bus_queues.specs.Change.{with_queue};
ghost use Rattle.atspi_bus_steps.specs.InnerBus.{state_of};
ghost use Rattle.atspi_bus_steps.specs.Sound.{IsSound};
ghost use Rattle.atspi_bus_steps.specs.Spoken.{IsRuleTaken};
ghost use Rattle.atspi_bus.specs.Exclusive.{IsExclusive};

use crate::whole::{leave_whole, take_whole};
use atspi_bus_steps::{BusFault, Inner, JoinFault};
use atspi_match::routing::Closing;
use atspi_message::Message;
use atspi_message_in_place::MessageRef;
use std::alloc::Global;

/// A message bus (D-Bus Specification, "Message Bus Specification"). A connection is known by its number. What a bus
/// knows is kept here, and contracts see it as `bus_of` says: the record of the definitions.
#[derive(Drop)]
pub struct Bus {
    /// How many connections have ever joined.
    given: u64,
    inner: Inner,
    ghost limit: { given ≤ 4294967296 },
    ghost below: { All (λ (c : ℕ). c < given) (state_of inner).joined },
    ghost sound: { IsSound (state_of inner) },
    ghost exclusive: { IsExclusive (state_of inner).owners },
}

impl Bus {
    ghost use Rattle.atspi_bus.specs.View.{bus_of, given_of};

    /// A bus with this quota, to which nobody has joined. A quota of more than 67,108,864 bytes counts as that.
    pub fn new(alloc: Global, quota: u32) -> Bus
        ensures bus { bus_of result ≡ empty_bus (min quota 67108864) }
        ensures given { given_of result ≡ 0 }
    {
        Bus {
            given: 0,
            inner: Inner::new(alloc, quota),
        }
    }

    /// A connection joins: its number is that of those which joined before. `Full` exactly where 4,294,967,296 have
    /// joined; after a fault all is as before.
    pub fn join(&mut self) -> Result<u32, JoinFault>
        ensures number { IfOk result
            (λ conn. (conn ≡ given_of self.old) × (given_of self.new ≡ given_of self.old + 1)) }
        ensures joined { IfOk result (λ conn. bus_of self.new ≡ joins (bus_of self.old) conn) }
        ensures within { IsWithinQuota (bus_of self.new) }
        ensures full { IsErrOf result JoinFault.Full ↔ (given_of self.old ≡ 4294967296) }
        ensures err { OnErr result ((bus_of self.new ≡ bus_of self.old) × (given_of self.new ≡ given_of self.old)) }
    {
        if self.given > u64::from(u32::MAX) {
            self.inner.stays_within();
            return Err(JoinFault::Full);
        }
        let conn = self.given as u32;
        let joined = self.inner.join_behind(conn);
        self.inner.stays_within();
        match joined {
            Ok(()) => {
                self.given += 1;
                Ok(conn)
            }
            Err(fault) => Err(fault),
        }
    }

    /// The bus takes a message of a connection, which lies in bytes: what it does is in `docs/ROUTING.md`. `Spent` only
    /// where the bus's own messages for this one would pass the serial 4,294,967,295, and no answer but a fault there.
    /// After a fault all is as before. A message that is too long for the wire with its sender, and a list of names
    /// that is, close their receivers.
    ///
    /// A message that is passed on, and one that the bus answers itself, costs what it brings alone, where each
    /// receiver of what goes out has room for it; ReleaseName, and RequestName of a name that somebody has, cost a copy
    /// of the names besides. One that brings a closing costs a copy of what the bus knows and of what waits in it.
    pub fn take(&mut self, conn: u32, m: &MessageRef) -> Result<(), BusFault>
        requires { MeetsRules (envelope_at m.now) }
        ensures ok { OnOk result
            ((rule : Option (List Condition)) × IsRuleTaken (bus_of self.old).state conn (envelope_at m.now) rule
            × (bus_of self.new ≡ takes (bus_of self.old) conn (envelope_at m.now) rule)) }
        ensures serial { OnOk result ((bus_of self.new).state.next ≤ 4294967296) }
        ensures spent { IsErrOf result BusFault.Spent
            → (rule : Option (List Condition)) × IsRuleTaken (bus_of self.old).state conn (envelope_at m.now) rule
            × (4294967296 < (takes (bus_of self.old) conn (envelope_at m.now) rule).state.next) }
        ensures within { IsWithinQuota (bus_of self.new) }
        ensures given { given_of self.new ≡ given_of self.old }
        ensures err { OnErr result (bus_of self.new ≡ bus_of self.old) }
    {
        let taken = take_whole(&mut self.inner, conn, m);
        self.inner.stays_within();
        taken
    }

    /// A connection leaves by itself. `Spent` only where the bus's own messages would pass the serial 4,294,967,295,
    /// and no answer but a fault there. After a fault all is as before. It costs what is told, and a look at each that
    /// has joined, each rule and each open call, where each receiver has room for what is told, and else a copy of what
    /// the bus knows and of what waits in it.
    pub fn leave(&mut self, conn: u32) -> Result<(), BusFault>
        ensures ok { OnOk result (bus_of self.new ≡ leaves (bus_of self.old) conn) }
        ensures serial { OnOk result ((bus_of self.new).state.next ≤ 4294967296) }
        ensures spent { IsErrOf result BusFault.Spent → 4294967296 < (leaves (bus_of self.old) conn).state.next }
        ensures within { IsWithinQuota (bus_of self.new) }
        ensures given { given_of self.new ≡ given_of self.old }
        ensures err { OnErr result (bus_of self.new ≡ bus_of self.old) }
    {
        let left = leave_whole(&mut self.inner, conn);
        self.inner.stays_within();
        left
    }

    /// The oldest closing that was not asked for yet.
    pub fn closed(&mut self) -> Option<Closing>
        ensures bus { bus_of self.old
            ≡ record (bus_of self.new) { closings = option_to_list result ++ (bus_of self.new).closings } }
        ensures none { IfNone result ((bus_of self.old).closings ≡ []) }
        ensures within { IsWithinQuota (bus_of self.new) }
        ensures given { given_of self.new ≡ given_of self.old }
    {
        let oldest = self.inner.closed();
        self.inner.stays_within();
        oldest
    }

    /// The oldest message of the bus's own that was not asked for yet, a broadcast once, also where nobody receives it.
    pub fn own(&mut self) -> Option<Message>
        ensures bus { bus_of self.old
            ≡ record (bus_of self.new) { own = map envelope_of (option_to_list result) ++ (bus_of self.new).own } }
        ensures none { IfNone result ((bus_of self.old).own ≡ []) }
        ensures within { IsWithinQuota (bus_of self.new) }
        ensures given { given_of self.new ≡ given_of self.old }
    {
        let oldest = self.inner.own();
        self.inner.stays_within();
        oldest
    }

    /// How many bytes wait for a connection: at most the quota.
    pub fn waiting(&self, conn: u32) -> u32
        ensures len { result ≡ length (queue_of (bus_of self.now).waiting.queues conn) }
        ensures within { IsWithinQuota (bus_of self.now) }
    {
        self.inner.waiting(conn)
    }

    /// The next piece of the bytes that wait for a connection, empty exactly where none wait.
    pub fn front(&self, conn: u32) -> &[u8]
        ensures begins { (rest : List ℕ) × (queue_of (bus_of self.now).waiting.queues conn ≡ result.now ++ rest) }
        ensures empty { (length result.now ≡ 0) ↔ (length (queue_of (bus_of self.now).waiting.queues conn) ≡ 0) }
    {
        self.inner.front(conn)
    }

    /// Drops the first bytes that wait for a connection.
    pub fn pop(&mut self, conn: u32, n: u32)
        requires { n ≤ length (queue_of (bus_of self.old).waiting.queues conn) }
        ensures bus { bus_of self.new ≡ record (bus_of self.old) {
          waiting = record (bus_of self.old).waiting {
            queues =
                with_queue (bus_of self.old).waiting.queues conn
                (drop n (queue_of (bus_of self.old).waiting.queues conn));
          };
        } }
        ensures within { IsWithinQuota (bus_of self.new) }
        ensures given { given_of self.new ≡ given_of self.old }
    {
        self.inner.pop(conn, n);
        self.inner.stays_within();
    }
}
