//! A connection leaves.

ghost use Rattle.std.specs.Prelude.{◌≡◌, ◌<◌, ◌++◌, map, Some, IfOk, OnOk, OnErr, IsErrOf};
ghost use Rattle.atspi_message.specs.Envelope.{envelope_of};
ghost use Rattle.atspi_match.specs.routing.BusState as states;
ghost use Rattle.atspi_match.specs.routing.Queues as queues;
ghost use Rattle.atspi_bus_steps.specs.InnerBus.{inner_of, state_of, call_of};
ghost use Rattle.atspi_bus_steps.specs.Sound.{IsSound};
ghost use Rattle.atspi_bus_steps.specs.Farewell as farewell;
ghost use Rattle.atspi_bus_steps.specs.Farewell.{forgotten};

use crate::BusFault;
use crate::inner::Inner;
use crate::open_call::OpenCall;
use crate::standing::{tell_acquired, unique_of};
use atspi_base::NoMemory;
use atspi_base::valid_names::BusName;
use atspi_bus_answers::{BusError, error_to, owner_changed};
use atspi_match::routing::{Closing, Why};
use atspi_message::Message;
use atspi_names::Names;
use std::alloc::Global;

/// What those are told whose calls wait for a connection's answer: that there is none, the oldest call first.
fn no_replies(
    alloc: Global,
    names: &Names,
    calls: &[OpenCall],
    conn: u32,
) -> Result<Vec<Message>, NoMemory>
    ensures { IfOk result
        (λ replies. map envelope_of replies.items ≡ farewell.no_replies names.now (map call_of calls.now) conn) }
{
    let mut replies = Vec::new(alloc);
    for call in calls {
        if call.callee == conn && call.caller != conn {
            let caller = names.unique_name(call.caller);
            replies.push(error_to(alloc, caller, call.serial, BusError::NoReply)?)?;
        }
    }
    Ok(replies)
}

/// Those whose calls wait for a connection's answer are told that there is none, the oldest call first. After want of
/// memory nothing more is told.
pub fn tell_callers(
    alloc: Global,
    names: &Names,
    calls: &[OpenCall],
    conn: u32,
    told: &mut Vec<Message>,
) -> Result<(), NoMemory>
    ensures ok { OnOk result
        (map envelope_of told.new.items
        ≡ map envelope_of told.old.items ++ farewell.no_replies names.now (map call_of calls.now) conn) }
    ensures err { OnErr result (told.new.items ≡ told.old.items) }
{
    let mut replies = no_replies(alloc, names, calls, conn)?;
    told.append(&mut replies)?;
    Ok(())
}

/// A name is told its next owner.
fn tell_name(
    alloc: Global,
    after: &Names,
    unique: &BusName,
    name: &BusName,
    told: &mut Vec<Message>,
) -> Result<(), NoMemory>
    ensures { OnOk result
        (map envelope_of told.new.items
        ≡ map envelope_of told.old.items ++ farewell.name_passes_on after.now unique.now name.now) }
{
    let next = after.owner(name);
    tell_acquired(alloc, after, name, next, told)?;
    let owner = unique_of(after, next);
    told.push(owner_changed(alloc, name, Some(unique), owner)?)?;
    Ok(())
}

/// Each name is told its next owner.
fn tell_names(
    alloc: Global,
    after: &Names,
    unique: &BusName,
    owned: &[BusName],
    told: &mut Vec<Message>,
) -> Result<(), NoMemory>
    ensures { OnOk result
        (map envelope_of told.new.items
        ≡ map envelope_of told.old.items ++ farewell.names_pass_on after.now unique.now owned.now) }
{
    for name in owned {
        tell_name(alloc, after, unique, name, told)?;
    }
    Ok(())
}

impl Inner {
    /// A connection is out of every list, and its queue goes with it.
    pub fn forget(&mut self, conn: u32)
        ensures { inner_of self.new ≡ forgotten (inner_of self.old) conn }
    {
        self.names.gone(conn);
        self.rules.drop_conn(conn);
        self.calls
            .retain(|call| !(call.caller == conn || call.callee == conn));
        self.joined.retain(|c| *c != conn);
        self.queues.close(conn);
    }

    /// A connection with a unique name leaves, and the others are told.
    fn part(&mut self, conn: u32, unique: &BusName) -> Result<(), BusFault>
        requires sound { IsSound (state_of self.old) }
        requires named { states.unique_of (state_of self.old).owners conn ≡ Some unique.now }
        ensures ok { OnOk result (inner_of self.new ≡ queues.left (inner_of self.old) conn) }
        ensures sound { OnOk result (IsSound (state_of self.new)) }
        ensures spent { IsErrOf result BusFault.Spent → 4294967296 < (queues.left (inner_of self.old) conn).state.next }
    {
        let alloc = self.alloc;
        let mut told = Vec::new(alloc);
        tell_callers(alloc, &self.names, &self.calls, conn, &mut told)?;
        let owned = self.names.owned(conn)?;
        self.forget(conn);
        tell_names(alloc, &self.names, unique, owned.as_slice(), &mut told)?;
        told.push(owner_changed(alloc, unique, Some(unique), None)?)?;
        self.say(told)
    }

    /// A connection leaves. Nobody is told of one without a unique name. After a fault nothing is known of the bus.
    pub(crate) fn leave(&mut self, conn: u32) -> Result<(), BusFault>
        requires sound { IsSound (state_of self.old) }
        ensures ok { OnOk result (inner_of self.new ≡ queues.left (inner_of self.old) conn) }
        ensures sound { OnOk result (IsSound (state_of self.new)) }
        ensures spent { IsErrOf result BusFault.Spent → 4294967296 < (queues.left (inner_of self.old) conn).state.next }
    {
        match self.names.unique_name(conn) {
            Some(name) => {
                let unique = name.copy(self.alloc)?;
                self.part(conn, &unique)
            }
            None => {
                self.forget(conn);
                Ok(())
            }
        }
    }

    /// Closes a connection: that is told with the serial of the last own message before, and it leaves.
    fn close(&mut self, conn: u32, why: Why) -> Result<(), BusFault>
        requires sound { IsSound (state_of self.old) }
        ensures ok { OnOk result (inner_of self.new ≡ queues.closed (inner_of self.old) conn why) }
        ensures sound { OnOk result (IsSound (state_of self.new)) }
        ensures spent { IsErrOf result BusFault.Spent
            → 4294967296 < (queues.closed (inner_of self.old) conn why).state.next }
    {
        let after = (self.next - 1) as u32;
        self.closings.push_back(Closing { conn, why, after })?;
        self.leave(conn)
    }

    /// Closes those that are to be closed, the first cause first, at most so many. After a fault nothing is known of
    /// the bus.
    fn close_due(&mut self, rounds: usize) -> Result<(), BusFault>
        requires sound { IsSound (state_of self.old) }
        ensures ok { OnOk result (inner_of self.new ≡ queues.settled rounds (inner_of self.old)) }
        ensures sound { OnOk result (IsSound (state_of self.new)) }
        ensures spent { IsErrOf result BusFault.Spent
            → 4294967296 < (queues.settled rounds (inner_of self.old)).state.next }
    {
        for round in 0..rounds {
            match self.queues.first_due() {
                Some((conn, why)) => self.close(conn, why)?,
                None => return Ok(()),
            }
        }
        Ok(())
    }

    /// Closes those that are to be closed, the first cause first, at most so many. After a fault the bus is given up:
    /// it is one of quota 0, to which nobody has joined.
    pub fn settle(&mut self, rounds: usize) -> Result<(), BusFault>
        requires sound { IsSound (state_of self.old) }
        ensures ok { OnOk result (inner_of self.new ≡ queues.settled rounds (inner_of self.old)) }
        ensures sound { OnOk result (IsSound (state_of self.new)) }
        ensures spent { IsErrOf result BusFault.Spent
            → 4294967296 < (queues.settled rounds (inner_of self.old)).state.next }
        ensures err { OnErr result (inner_of self.new ≡ queues.empty_bus 0) }
    {
        match self.close_due(rounds) {
            Ok(()) => Ok(()),
            Err(fault) => {
                self.give_up();
                Err(fault)
            }
        }
    }
}
