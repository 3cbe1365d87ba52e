//! Calls that change names. A Hello is taken back where it cannot be told; ReleaseName, and RequestName of a name that
//! somebody has, are done on a copy of the names alone, which takes their place once all is said.

ghost use Rattle.std.specs.Prelude.{◌≡◌, true, map, All, List, None, Ok, Option, IfOk, OnErr, IsErrOf, MatchBool};
ghost use Rattle.std.specs.FinMap as finmap;
ghost use Rattle.atspi_message.specs.Envelope.{envelope_of};
ghost use Rattle.atspi_message.specs.Rules.{MeetsRules};
ghost use Rattle.atspi_message_in_place.specs.View.{envelope_at};
ghost use Rattle.atspi_match.specs.declared.condition.Condition.{Condition};
ghost use Rattle.atspi_match.specs.routing.Members as members;
ghost use Rattle.atspi_match.specs.routing.Queues.{stepped, takes};
ghost use Rattle.atspi_match.specs.routing.Steps as steps;
ghost use Rattle.atspi_bus_answers.specs.Answered.{IsSpokenOf, AreNamed};
ghost use Rattle.atspi_bus_steps.specs.Greeting.{greeting};
ghost use Rattle.atspi_bus_steps.specs.InnerBus.{inner_of, state_of};
ghost use Rattle.atspi_bus_steps.specs.Sayable.{MaySay};
ghost use Rattle.atspi_bus_steps.specs.Sound.{IsReady, IsSound};
ghost use Rattle.atspi_bus_steps.specs.Spoken.{answered_by};
ghost use Rattle.atspi_bus.specs.inner.Changed.{changes_names};

use crate::in_place::say_each;
use atspi_base::valid_names::BusName;
use atspi_bus_answers::answer;
use atspi_bus_steps::{BusFault, Inner, expects_reply, greeting};
use atspi_match::routing::BusMember;
use atspi_message::Message;
use atspi_message_in_place::MessageRef;
use atspi_names::{Names, NamesFault};
use std::collections::VecDeque;
use std::mem;

/// Puts other names into the place of those of a bus, and says what is told then, all or nothing. Where it cannot be
/// said in place, and after a fault, all is as before.
fn rename(inner: &mut Inner, names: Names, told: Vec<Message>) -> Result<bool, BusFault>
    requires ready { IsReady (state_of inner.old) }
    requires sayable { All MaySay (map envelope_of told.items) }
    ensures ok { IfOk result (λ went. MatchBool went
        (inner_of inner.new
        ≡ stepped (inner_of inner.old)
        (steps.speaks (record (state_of inner.old) { owners = names }) (map envelope_of told.items)))
        (inner_of inner.new ≡ inner_of inner.old)) }
    ensures ready { IsReady (state_of inner.new) }
    ensures due { (inner_of inner.new).waiting.due ≡ (inner_of inner.old).waiting.due }
    ensures spent { IsErrOf result BusFault.Spent → ⊥ }
    ensures err { OnErr result (inner_of inner.new ≡ inner_of inner.old) }
{
    let before = mem::replace(&mut inner.names, names);
    let mut rest = VecDeque::from(told);
    match say_each(inner, &mut rest) {
        Ok(true) => Ok(true),
        Ok(false) => {
            inner.names = before;
            Ok(false)
        }
        Err(fault) => {
            inner.names = before;
            Err(fault)
        }
    }
}

/// Answers RequestName or ReleaseName, on a copy of the names.
pub fn rename_in_place(
    inner: &mut Inner,
    member: BusMember,
    conn: u32,
    m: &MessageRef,
) -> Result<bool, BusFault>
    requires changes { changes_names member ≡ true }
    requires sound { IsSound (state_of inner.old) }
    requires meets { MeetsRules (envelope_at m.now) }
    requires asked { members.member_of (envelope_at m.now) ≡ Ok member }
    ensures ok { IfOk result (λ went. MatchBool went
        ((rule : Option (List Condition)) × IsSpokenOf member (envelope_at m.now).body rule
        × (inner_of inner.new
        ≡ stepped (inner_of inner.old) (answered_by member (state_of inner.old) conn (envelope_at m.now) rule)))
        (inner_of inner.new ≡ inner_of inner.old)) }
    ensures sound { IsSound (state_of inner.new) }
    ensures due { (inner_of inner.new).waiting.due ≡ (inner_of inner.old).waiting.due }
    ensures spent { IsErrOf result BusFault.Spent → ⊥ }
    ensures err { OnErr result (inner_of inner.new ≡ inner_of inner.old) }
{
    let alloc = inner.alloc;
    let mut names = inner.names.copy()?;
    let mut told = Vec::new(alloc);
    let rules = &mut inner.rules;
    let reply = answer(alloc, member, &mut names, rules, conn, m, &mut told)?;
    if expects_reply(m) {
        told.push(inner.reply(conn, m.serial, reply)?)?;
    }
    rename(inner, names, told)
}

/// Says what is told where a connection gets this unique name, all or nothing. Where it cannot be said in place, and
/// after a fault, all is as before.
fn tell_name(inner: &mut Inner, name: &BusName, m: &MessageRef) -> Result<bool, BusFault>
    requires ready { IsReady (state_of inner.old) }
    requires meets { MeetsRules (envelope_at m.now) }
    ensures ok { IfOk result (λ went. MatchBool went
        (inner_of inner.new
        ≡ stepped (inner_of inner.old) (steps.speaks (state_of inner.old) (greeting name.now (envelope_at m.now))))
        (inner_of inner.new ≡ inner_of inner.old)) }
    ensures ready { IsReady (state_of inner.new) }
    ensures due { (inner_of inner.new).waiting.due ≡ (inner_of inner.old).waiting.due }
    ensures spent { IsErrOf result BusFault.Spent → ⊥ }
    ensures err { OnErr result (inner_of inner.new ≡ inner_of inner.old) }
{
    let told = greeting(inner.alloc, name, m)?;
    let mut rest = VecDeque::from(told);
    say_each(inner, &mut rest)
}

/// Hello: the connection gets its unique name. It is taken back where it cannot be told.
pub fn greet_in_place(inner: &mut Inner, conn: u32, m: &MessageRef) -> Result<bool, BusFault>
    requires unnamed { finmap.get (state_of inner.old).owners.unique conn ≡ None }
    requires sound { IsSound (state_of inner.old) }
    requires meets { MeetsRules (envelope_at m.now) }
    ensures ok { IfOk result (λ went. MatchBool went
        (inner_of inner.new ≡ stepped (inner_of inner.old) (steps.greets (state_of inner.old) conn (envelope_at m.now)))
        (inner_of inner.new ≡ inner_of inner.old)) }
    ensures sound { IsSound (state_of inner.new) }
    ensures due { (inner_of inner.new).waiting.due ≡ (inner_of inner.old).waiting.due }
    ensures spent { IsErrOf result BusFault.Spent → ⊥ }
    ensures err { OnErr result (inner_of inner.new ≡ inner_of inner.old) }
{
    let name = match inner.names.hello(conn) {
        Ok(name) => name,
        Err(NamesFault::Full) => return Ok(false),
        Err(NamesFault::NoMemory) => return Err(BusFault::NoMemory),
    };
    match tell_name(inner, &name, m) {
        Ok(true) => Ok(true),
        Ok(false) => {
            inner.names.take_back_hello(conn);
            Ok(false)
        }
        Err(fault) => {
            inner.names.take_back_hello(conn);
            Err(fault)
        }
    }
}
