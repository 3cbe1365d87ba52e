//! Messages that are passed on, and the calls that wait for their replies.

ghost use Rattle.std.specs.Prelude.{◌≡◌, ◌≢◌, ◌+◌, ◌<◌, ◌≤◌, ◌==◌, ◌&&◌, ℕ, true, false, [], ◌∷◌, ◌++◌, not, map};
ghost use Rattle.std.specs.Prelude.{length, None, Some, All, IfOk, OnOk, OnErr, IsErrOf, MatchBool, MatchOption};
ghost use Rattle.std.specs.Prelude.{remove, vec_len, vec_capacity};
ghost use Rattle.std.specs.List.Sorted.{IsStrictlyIncreasing};
ghost use Rattle.atspi_base.specs.valid_names.Names.{is_bus_name};
ghost use Rattle.atspi_message.specs.Bytes.{written};
ghost use Rattle.atspi_message.specs.Rules.{MeetsRules};
ghost use Rattle.atspi_message_in_place.specs.View.{envelope_at};
ghost use Rattle.atspi_names.specs.Queue.{owner_in};
ghost use Rattle.atspi_names.specs.Owners.{list_of};
ghost use Rattle.atspi_match.specs.routing.Routing as routing;
ghost use Rattle.atspi_match.specs.routing.Routing.{calls_after, without_answered};
ghost use Rattle.atspi_match.specs.routing.Queues.{stepped};
ghost use Rattle.atspi_match.specs.routing.Steps.{passes_on, calls_after_all};
ghost use Rattle.atspi_bus_steps.specs.InnerBus.{inner_of, state_of, call_of, parts};
ghost use Rattle.atspi_bus_steps.specs.inner.Handing.{forwards, queued_each, WentToAll, WentSigned, IsPassed};
ghost use Rattle.atspi_bus_steps.specs.Sound.{IsSound};

use crate::BusFault;
use crate::handing::{Spelled, hand_out, write_again};
use crate::inner::Inner;
use crate::open_call::OpenCall;
use crate::receiving::{bus_name, receivers};
use crate::saying::expects_reply;
use crate::taking::with_sender;
use atspi_bus_answers::{BusError, Reply};
use atspi_bus_queues::Queues;
use atspi_match::RuleIndex;
use atspi_message_in_place::MessageRef;
use atspi_names::Names;
use std::alloc::Global;

/// The place of the oldest open call that a reply of the callee to the caller answers.
fn answered(calls: &[OpenCall], caller: u32, serial: u32, callee: u32) -> Option<usize>
    ensures { MatchOption result (without_answered (map call_of calls.now) caller serial callee ≡ map call_of calls.now)
        (λ i. (i < length calls.now)
        × (without_answered (map call_of calls.now) caller serial callee ≡ map call_of (remove calls.now i))) }
{
    for (i, call) in calls.iter().enumerate() {
        if call.caller == caller && call.serial == serial && call.callee == callee {
            return Some(i);
        }
    }
    None
}

/// Takes out the oldest open call that a reply answers, and no other. The room stays.
fn take_answered(calls: &mut Vec<OpenCall>, caller: u32, serial: u32, callee: u32)
    ensures calls { map call_of calls.new.items ≡ without_answered (map call_of calls.old.items) caller serial callee }
    ensures len { vec_len calls.new ≤ vec_len calls.old }
    ensures room { vec_capacity calls.new ≡ vec_capacity calls.old }
{
    if let Some(i) = answered(calls, caller, serial, callee) {
        let _ = calls.remove(i);
    }
}

/// Notes that a message of a connection went to a receiver: a call waits for its reply, and a reply ends the waiting.
fn note(calls: &mut Vec<OpenCall>, conn: u32, m: &MessageRef, receiver: u32)
    requires { vec_len calls.old < vec_capacity calls.old }
    ensures calls { map call_of calls.new.items
        ≡ calls_after (map call_of calls.old.items) conn (envelope_at m.now) receiver }
    ensures len { vec_len calls.new ≤ vec_len calls.old + 1 }
    ensures room { vec_capacity calls.new ≡ vec_capacity calls.old }
{
    if expects_reply(m) {
        calls.push_reserved(OpenCall {
            caller: conn,
            serial: m.serial,
            callee: receiver,
        });
    } else if m.kind == 2 || m.kind == 3 {
        if let Some(serial) = m.reply {
            take_answered(calls, receiver, serial, conn);
        }
    }
}

/// Notes that a message of a connection went to its receivers, where there is room for as many calls more.
fn note_all(calls: &mut Vec<OpenCall>, conn: u32, m: &MessageRef, receivers: &[u32])
    requires { vec_len calls.old + length receivers.now ≤ vec_capacity calls.old }
    ensures { map call_of calls.new.items
        ≡ calls_after_all (map call_of calls.old.items) conn (envelope_at m.now) receivers.now }
{
    for receiver in receivers {
        note(calls, conn, m, *receiver);
    }
}

/// Hands a message of a connection to some receivers where each has room for it, and notes what it opens or ends. It
/// answers whether each has room. Where one has none, and after a fault, all is as before.
fn hand_to_each(
    alloc: Global,
    calls: &mut Vec<OpenCall>,
    queues: &mut Queues,
    conn: u32,
    m: &MessageRef,
    receivers: &[u32],
) -> Result<bool, BusFault>
    requires { MeetsRules (envelope_at m.now) }
    ensures ok { IfOk result (λ went. MatchBool went
        ((map call_of calls.new.items
        ≡ calls_after_all (map call_of calls.old.items) conn (envelope_at m.now) receivers.now)
        × (queues.new ≡ record queues.old {
          waiting = queued_each queues.old.quota queues.old.waiting (written (envelope_at m.now)) receivers.now;
        }))
        ((calls.new.items ≡ calls.old.items) × (queues.new ≡ queues.old))) }
    ensures due { queues.new.waiting.due ≡ queues.old.waiting.due }
    ensures spent { IsErrOf result BusFault.Spent → ⊥ }
    ensures err { OnErr result ((calls.new.items ≡ calls.old.items) × (queues.new ≡ queues.old)) }
{
    let Spelled::Bytes(bytes) = write_again(alloc, m)? else {
        return Ok(false);
    };
    calls.reserve(receivers.len())?;
    let went = queues.push_each(receivers, bytes.as_slice())?;
    if !went {
        return Ok(false);
    }
    note_all(calls, conn, m, receivers);
    Ok(true)
}

/// Hands a message of a connection to the owner of a name where it has one, with room for the message, and answers
/// whether that is so. Where it is not, and after a fault, all is as before.
fn pass_to_owner(
    alloc: Global,
    names: &Names,
    calls: &mut Vec<OpenCall>,
    queues: &mut Queues,
    conn: u32,
    m: &MessageRef,
    name: &str,
) -> Result<bool, BusFault>
    requires name { is_bus_name name.now ≡ true }
    requires meets { MeetsRules (envelope_at m.now) }
    ensures ok { IfOk result (λ went. MatchBool went
        ((owner : ℕ) × (owner_in (list_of names.now.lists name.now) ≡ Some owner)
        × (map call_of calls.new.items
        ≡ calls_after_all (map call_of calls.old.items) conn (envelope_at m.now) (owner ∷ []))
        × (queues.new ≡ record queues.old {
          waiting = queued_each queues.old.quota queues.old.waiting (written (envelope_at m.now)) (owner ∷ []);
        }))
        ((calls.new.items ≡ calls.old.items) × (queues.new ≡ queues.old))) }
    ensures due { queues.new.waiting.due ≡ queues.old.waiting.due }
    ensures spent { IsErrOf result BusFault.Spent → ⊥ }
    ensures err { OnErr result ((calls.new.items ≡ calls.old.items) × (queues.new ≡ queues.old)) }
{
    let name = bus_name(alloc, name)?;
    match names.owner(&name) {
        Some(owner) => hand_to_each(alloc, calls, queues, conn, m, &[owner]),
        None => Ok(false),
    }
}

/// Hands a message of a connection to all its receivers, where it goes to no name without an owner and each of them has
/// room for it, and answers whether that is so. Where it is not, and after a fault, all is as before.
fn pass_to_all(
    alloc: Global,
    joined: &[u32],
    names: &Names,
    rules: &RuleIndex,
    calls: &mut Vec<OpenCall>,
    queues: &mut Queues,
    conn: u32,
    m: &MessageRef,
) -> Result<bool, BusFault>
    requires joined { IsStrictlyIncreasing joined.now }
    requires meets { MeetsRules (envelope_at m.now) }
    ensures ok { IfOk result (λ went. MatchBool went
        (WentToAll (parts joined.now names.now rules.now) conn (envelope_at m.now) (map call_of calls.old.items)
        (map call_of calls.new.items)
        queues.old queues.new)
        ((calls.new.items ≡ calls.old.items) × (queues.new ≡ queues.old))) }
    ensures due { queues.new.waiting.due ≡ queues.old.waiting.due }
    ensures spent { IsErrOf result BusFault.Spent → ⊥ }
    ensures err { OnErr result ((calls.new.items ≡ calls.old.items) × (queues.new ≡ queues.old)) }
{
    match m.destination {
        Some(text) => pass_to_owner(alloc, names, calls, queues, conn, m, text),
        None => {
            let found = receivers(alloc, joined, names, rules, m)?;
            hand_to_each(alloc, calls, queues, conn, m, &found)
        }
    }
}

/// Does the same with a message that has no sender yet, where its connection has its name.
fn pass_signed(
    alloc: Global,
    joined: &[u32],
    names: &Names,
    rules: &RuleIndex,
    calls: &mut Vec<OpenCall>,
    queues: &mut Queues,
    conn: u32,
    m: &MessageRef,
) -> Result<bool, BusFault>
    requires joined { IsStrictlyIncreasing joined.now }
    requires meets { MeetsRules (envelope_at m.now) }
    ensures ok { IfOk result (λ went. MatchBool went
        (WentSigned (parts joined.now names.now rules.now) conn (envelope_at m.now) (map call_of calls.old.items)
        (map call_of calls.new.items)
        queues.old queues.new)
        ((calls.new.items ≡ calls.old.items) × (queues.new ≡ queues.old))) }
    ensures due { queues.new.waiting.due ≡ queues.old.waiting.due }
    ensures spent { IsErrOf result BusFault.Spent → ⊥ }
    ensures err { OnErr result ((calls.new.items ≡ calls.old.items) × (queues.new ≡ queues.old)) }
{
    match names.unique_name(conn) {
        Some(name) => {
            let signed = with_sender(m, name);
            pass_to_all(alloc, joined, names, rules, calls, queues, conn, &signed)
        }
        None => Ok(false),
    }
}

impl Inner {
    /// Hands a message of a connection to its receivers, and notes what it opens or ends.
    fn forward(&mut self, conn: u32, m: &MessageRef, receivers: &[u32]) -> Result<(), BusFault>
        requires meets { MeetsRules (envelope_at m.now) }
        requires receivers { receivers.now ≡ routing.receivers (state_of self.old) (envelope_at m.now) }
        ensures ok { OnOk result
            (inner_of self.new ≡ stepped (inner_of self.old) (forwards (state_of self.old) conn (envelope_at m.now))) }
        ensures spent { IsErrOf result BusFault.Spent → ⊥ }
    {
        let spelled = write_again(self.alloc, m)?;
        self.calls.reserve(receivers.len())?;
        hand_out(&mut self.queues, &spelled, receivers)?;
        note_all(&mut self.calls, conn, m, receivers);
        Ok(())
    }

    /// Passes a message on that is not for the bus itself. A call to a name that nobody owns is refused, anything else
    /// to it is dropped.
    pub(crate) fn pass_on(&mut self, conn: u32, m: &MessageRef) -> Result<(), BusFault>
        requires sound { IsSound (state_of self.old) }
        requires meets { MeetsRules (envelope_at m.now) }
        ensures ok { OnOk result
            (inner_of self.new ≡ stepped (inner_of self.old) (passes_on (state_of self.old) conn (envelope_at m.now))) }
        ensures sound { OnOk result (IsSound (state_of self.new)) }
        ensures spent { IsErrOf result BusFault.Spent
            → 4294967296 < (passes_on (state_of self.old) conn (envelope_at m.now)).state.next }
    {
        let (names, rules) = (&self.names, &self.rules);
        let found = receivers(self.alloc, &self.joined, names, rules, m)?;
        if m.destination.is_some() && found.is_empty() {
            let none = Vec::new(self.alloc);
            return self.conclude(conn, m, none, Reply::Fails(BusError::ServiceUnknown));
        }
        self.forward(conn, m, &found)
    }

    /// Passes a message of a connection on in place, with its sender, where the connection has its name, the message
    /// goes to no name without an owner, and each receiver has room for it. It answers whether that is so. Where it is
    /// not, and after a fault, all is as before.
    pub(crate) fn pass_in_place(&mut self, conn: u32, m: &MessageRef) -> Result<bool, BusFault>
        requires sound { IsSound (state_of self.old) }
        requires meets { MeetsRules (envelope_at m.now) }
        ensures ok { IfOk result (λ went. MatchBool went
            (IsPassed (inner_of self.old) (inner_of self.new) conn (envelope_at m.now))
            (inner_of self.new ≡ inner_of self.old)) }
        ensures sound { IsSound (state_of self.new) }
        ensures due { (inner_of self.new).waiting.due ≡ (inner_of self.old).waiting.due }
        ensures spent { IsErrOf result BusFault.Spent → ⊥ }
        ensures err { OnErr result (inner_of self.new ≡ inner_of self.old) }
    {
        let (names, rules) = (&self.names, &self.rules);
        let (calls, queues) = (&mut self.calls, &mut self.queues);
        pass_signed(
            self.alloc,
            &self.joined,
            names,
            rules,
            calls,
            queues,
            conn,
            m,
        )
    }
}
