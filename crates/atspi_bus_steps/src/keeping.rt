//! A new bus, a copy of one, and who has joined it.

ghost use Rattle.std.specs.Prelude.{◌≡◌, ◌<◌, ◌≤◌, ◌↔◌, ◌++◌, ℕ, min, List, [], All, map, length, drop, option_copied};
ghost use Rattle.std.specs.Prelude.{option_to_list, IfNone, IfOk, IsErrOf, IsTrue, OnOk, OnErr};
ghost use Rattle.atspi_message.specs.Envelope.{envelope_of};
ghost use Rattle.atspi_match.specs.routing.BusState.{unique_of};
ghost use Rattle.atspi_match.specs.routing.Laws.{IsWithinQuota};
ghost use Rattle.atspi_match.specs.routing.Queues.{empty_bus, joins, queue_of};
ghost use Rattle.atspi_bus_queues.specs.Change.{with_queue};
ghost use Rattle.atspi_bus_steps.specs.InnerBus.{inner_of, state_of};
ghost use Rattle.atspi_bus_steps.specs.Sound.{IsSound};

use crate::JoinFault;
use crate::inner::Inner;
use atspi_base::NoMemory;
use atspi_base::valid_names::BusName;
use atspi_bus_queues::Queues;
use atspi_match::RuleIndex;
use atspi_match::routing::Closing;
use atspi_message::Message;
use atspi_names::Names;
use std::alloc::Global;
use std::collections::VecDeque;

impl Inner {
    /// A bus with this quota, to which nobody has joined. A quota of more than 67,108,864 bytes counts as that.
    pub fn new(alloc: Global, quota: u32) -> Inner
        ensures bus { inner_of result ≡ empty_bus (min quota 67108864) }
    {
        Inner {
            alloc,
            joined: Vec::new(alloc),
            names: Names::new(alloc),
            rules: RuleIndex::new(alloc),
            calls: Vec::new(alloc),
            next: 1,
            queues: Queues::new(alloc, quota),
            own: VecDeque::new(alloc),
            closings: VecDeque::new(alloc),
        }
    }

    /// The bus is given up: it is one of quota 0, to which nobody has joined.
    pub(crate) fn give_up(&mut self)
        ensures { inner_of self.new ≡ empty_bus 0 }
    {
        *self = Inner::new(self.alloc, 0);
    }

    /// What the bus knows becomes what the other one knows. After want of memory nothing is known of it.
    fn copy_state(&mut self, other: &Inner) -> Result<(), NoMemory>
        ensures { OnOk result (state_of self.new ≡ state_of other.now) }
    {
        let alloc = self.alloc;
        self.joined = other.joined.to_vec(alloc)?;
        self.names = other.names.copy()?;
        self.rules = other.rules.copy()?;
        self.calls = other.calls.to_vec(alloc)?;
        self.next = other.next;
        Ok(())
    }

    /// What waits in the bus becomes what waits in the other one. After want of memory nothing is known of it.
    fn copy_waiting(&mut self, other: &Inner) -> Result<(), NoMemory>
        ensures { OnOk result (inner_of self.new ≡ record (inner_of other.now) { state = state_of self.old }) }
    {
        let alloc = self.alloc;
        self.queues = other.queues.copy(alloc)?;
        self.own = copy_own(alloc, &other.own)?;
        self.closings = other.closings.clone()?;
        Ok(())
    }

    /// The bus becomes equal to the other one. After want of memory nothing is known of it.
    fn copy_all(&mut self, other: &Inner) -> Result<(), NoMemory>
        ensures { OnOk result (inner_of self.new ≡ inner_of other.now) }
    {
        self.copy_state(other)?;
        self.copy_waiting(other)
    }

    /// An equal bus. It fails only for want of memory.
    pub fn copy(&self) -> Result<Inner, NoMemory>
        ensures { IfOk result (λ copy. inner_of copy ≡ inner_of self.now) }
    {
        let mut copy = Inner::new(self.alloc, 0);
        copy.copy_all(self)?;
        Ok(copy)
    }

    /// A connection joins. After want of memory all is as before.
    pub fn join(&mut self, conn: u32) -> Result<(), NoMemory>
        ensures ok { OnOk result (inner_of self.new ≡ joins (inner_of self.old) conn) }
        ensures err { OnErr result (inner_of self.new ≡ inner_of self.old) }
    {
        self.joined.push(conn)?;
        if self.queues.open_queue(conn).is_err() {
            let _ = self.joined.pop();
            return Err(NoMemory);
        }
        Ok(())
    }
}

impl Inner {
    /// A connection joins whose number is above those of all that have joined. Full exactly where it is not; after a
    /// fault all is as before.
    pub fn join_behind(&mut self, conn: u32) -> Result<(), JoinFault>
        requires sound { IsSound (state_of self.old) }
        ensures ok { OnOk result (inner_of self.new ≡ joins (inner_of self.old) conn) }
        ensures sound { OnOk result (IsSound (state_of self.new)) }
        ensures full { IsErrOf result JoinFault.Full ↔ (All (λ c. c < conn) (state_of self.old).joined → ⊥) }
        ensures err { OnErr result (inner_of self.new ≡ inner_of self.old) }
    {
        if !is_above(&self.joined, conn) {
            return Err(JoinFault::Full);
        }
        match self.join(conn) {
            Ok(()) => Ok(()),
            Err(_) => Err(JoinFault::NoMemory),
        }
    }

    /// How many connections there are: so many closings at most follow a message.
    pub fn joined_count(&self) -> usize
        ensures { result ≡ length (state_of self.now).joined }
    {
        self.joined.len()
    }

    /// The unique name of a connection, once the bus gave it.
    pub fn unique_name(&self, conn: u32) -> Option<&BusName>
        ensures { option_copied result ≡ unique_of (state_of self.now).owners conn }
    {
        self.names.unique_name(conn)
    }

    /// The oldest closing that was not asked for yet.
    pub fn closed(&mut self) -> Option<Closing>
        ensures bus { inner_of self.old
            ≡ record (inner_of self.new) { closings = option_to_list result ++ (inner_of self.new).closings } }
        ensures none { result ≡ None → (inner_of self.new).closings ≡ [] }
        ensures empty { IfNone result ((inner_of self.old).closings ≡ []) }
        ensures state { state_of self.new ≡ state_of self.old }
    {
        self.closings.pop_front()
    }

    /// The oldest message of the bus's own that was not asked for yet.
    pub fn own(&mut self) -> Option<Message>
        ensures bus { inner_of self.old
            ≡ record (inner_of self.new) { own = map envelope_of (option_to_list result) ++ (inner_of self.new).own } }
        ensures none { result ≡ None → (inner_of self.new).own ≡ [] }
        ensures empty { IfNone result ((inner_of self.old).own ≡ []) }
        ensures state { state_of self.new ≡ state_of self.old }
    {
        self.own.pop_front()
    }

    /// How many bytes wait for a connection: at most the quota.
    pub fn waiting(&self, conn: u32) -> u32
        ensures len { result ≡ length (queue_of (inner_of self.now).waiting.queues conn) }
        ensures within { IsWithinQuota (inner_of self.now) }
    {
        self.queues.waiting(conn)
    }

    /// A law: each queue is at most the quota.
    pub fn stays_within(&self)
        ensures { IsWithinQuota (inner_of self.now) }
    {
        self.queues.stay_within();
    }

    /// The next piece of the bytes that wait for a connection, empty exactly where none wait.
    pub fn front(&self, conn: u32) -> &[u8]
        ensures begins { (rest : List ℕ) × (queue_of (inner_of self.now).waiting.queues conn ≡ result.now ++ rest) }
        ensures empty { (length result.now ≡ 0) ↔ (length (queue_of (inner_of self.now).waiting.queues conn) ≡ 0) }
    {
        self.queues.front(conn)
    }

    /// Drops the first bytes that wait for a connection.
    pub fn pop(&mut self, conn: u32, n: u32)
        requires { n ≤ length (queue_of (inner_of self.old).waiting.queues conn) }
        ensures { inner_of self.new ≡ record (inner_of self.old) {
          waiting = record (inner_of self.old).waiting {
            queues =
                with_queue (inner_of self.old).waiting.queues conn
                (drop n (queue_of (inner_of self.old).waiting.queues conn));
          };
        } }
    {
        self.queues.pop(conn, n);
    }
}

/// Whether a number is above all of these.
fn is_above(joined: &[u32], conn: u32) -> bool
    ensures { IsTrue result ↔ All (λ c. c < conn) joined.now }
{
    joined.iter().all(|c| *c < conn)
}

/// Equal messages.
fn copy_own(alloc: Global, own: &VecDeque<Message>) -> Result<VecDeque<Message>, NoMemory>
    ensures { IfOk result (λ copy. map envelope_of copy.items ≡ map envelope_of own.now.items) }
{
    let mut copy = VecDeque::new(alloc);
    for i in 0..own.len() {
        let message = own[i].copy(alloc)?;
        copy.push_back(message)?;
    }
    Ok(copy)
}
