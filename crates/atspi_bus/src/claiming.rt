//! RequestName of a name that nobody has, which costs no copy of the names.

ghost use Rattle.std.specs.Prelude.{◌≡◌, ◌++◌, map, All, List, Ok, Option, IfOk, OnErr, IsErrOf, MatchBool};
ghost use Rattle.atspi_message.specs.Envelope.{envelope_of};
ghost use Rattle.atspi_message.specs.Rules.{MeetsRules};
ghost use Rattle.atspi_message_in_place.specs.View.{envelope_at};
ghost use Rattle.atspi_match.specs.declared.condition.Condition.{Condition};
ghost use Rattle.atspi_match.specs.routing.Members as members;
ghost use Rattle.atspi_match.specs.routing.Queues.{stepped};
ghost use Rattle.atspi_match.specs.routing.Steps as steps;
ghost use Rattle.atspi_bus_answers.specs.Answered.{IsSpokenOf, reply_of};
ghost use Rattle.atspi_bus_answers.specs.Free.{IsFreeName};
ghost use Rattle.atspi_bus_steps.specs.InnerBus.{inner_of, state_of};
ghost use Rattle.atspi_bus_steps.specs.Sayable.{MaySay, IsTyped};
ghost use Rattle.atspi_bus_steps.specs.Sound.{IsReady, IsSound};
ghost use Rattle.atspi_bus_steps.specs.Spoken.{answered_by};

use crate::in_place::say_each;
use crate::renaming::rename_in_place;
use atspi_base::valid_names::BusName;
use atspi_bus_answers::{Reply, answer, free_name};
use atspi_bus_steps::{BusFault, Inner, expects_reply};
use atspi_match::routing::BusMember;
use atspi_message::Message;
use atspi_message_in_place::MessageRef;
use std::collections::VecDeque;

/// Says what an answer tells, and behind it the reply to the call, where one is expected, all or nothing. Where it
/// cannot be said in place, and after a fault, all is as before.
fn tell_answer(
    inner: &mut Inner,
    conn: u32,
    m: &MessageRef,
    told: Vec<Message>,
    reply: Reply,
) -> Result<bool, BusFault>
    requires ready { IsReady (state_of inner.old) }
    requires meets { MeetsRules (envelope_at m.now) }
    requires sayable { All MaySay (map envelope_of told.items) }
    requires typed { IsTyped (reply_of reply) }
    ensures ok { IfOk result (λ went. MatchBool went
        (inner_of inner.new ≡ stepped (inner_of inner.old) (steps.speaks (state_of inner.old)
        (map envelope_of told.items ++ steps.replies (state_of inner.old) conn (envelope_at m.now) (reply_of reply))))
        (inner_of inner.new ≡ inner_of inner.old)) }
    ensures ready { IsReady (state_of inner.new) }
    ensures due { (inner_of inner.new).waiting.due ≡ (inner_of inner.old).waiting.due }
    ensures spent { IsErrOf result BusFault.Spent → ⊥ }
    ensures err { OnErr result (inner_of inner.new ≡ inner_of inner.old) }
{
    let mut told = told;
    if expects_reply(m) {
        told.push(inner.reply(conn, m.serial, reply)?)?;
    }
    let mut rest = VecDeque::from(told);
    say_each(inner, &mut rest)
}

/// Answers RequestName of a name that nobody has. It is released again where that cannot be told.
fn claim_in_place(
    inner: &mut Inner,
    conn: u32,
    m: &MessageRef,
    name: &BusName,
) -> Result<bool, BusFault>
    requires free { IsFreeName (state_of inner.old).owners (envelope_at m.now).body name.now }
    requires sound { IsSound (state_of inner.old) }
    requires meets { MeetsRules (envelope_at m.now) }
    requires asked { members.member_of (envelope_at m.now) ≡ Ok BusMember.RequestName }
    ensures ok { IfOk result (λ went. MatchBool went
        ((rule : Option (List Condition)) × IsSpokenOf BusMember.RequestName (envelope_at m.now).body rule
        × (inner_of inner.new
        ≡ stepped (inner_of inner.old)
        (answered_by BusMember.RequestName (state_of inner.old) conn (envelope_at m.now) rule)))
        (inner_of inner.new ≡ inner_of inner.old)) }
    ensures sound { IsSound (state_of inner.new) }
    ensures due { (inner_of inner.new).waiting.due ≡ (inner_of inner.old).waiting.due }
    ensures spent { IsErrOf result BusFault.Spent → ⊥ }
    ensures err { OnErr result (inner_of inner.new ≡ inner_of inner.old) }
{
    let alloc = inner.alloc;
    let mut told = Vec::new(alloc);
    let (names, rules) = (&mut inner.names, &mut inner.rules);
    let member = BusMember::RequestName;
    let reply = answer(alloc, member, names, rules, conn, m, &mut told)?;
    match tell_answer(inner, conn, m, told, reply) {
        Ok(true) => Ok(true),
        Ok(false) => {
            inner.names.release(conn, name);
            Ok(false)
        }
        Err(fault) => {
            inner.names.release(conn, name);
            Err(fault)
        }
    }
}

/// Answers RequestName: in place where nobody has the name.
pub fn request_in_place(inner: &mut Inner, conn: u32, m: &MessageRef) -> Result<bool, BusFault>
    requires sound { IsSound (state_of inner.old) }
    requires meets { MeetsRules (envelope_at m.now) }
    requires asked { members.member_of (envelope_at m.now) ≡ Ok BusMember.RequestName }
    ensures ok { IfOk result (λ went. MatchBool went
        ((rule : Option (List Condition)) × IsSpokenOf BusMember.RequestName (envelope_at m.now).body rule
        × (inner_of inner.new
        ≡ stepped (inner_of inner.old)
        (answered_by BusMember.RequestName (state_of inner.old) conn (envelope_at m.now) rule)))
        (inner_of inner.new ≡ inner_of inner.old)) }
    ensures sound { IsSound (state_of inner.new) }
    ensures due { (inner_of inner.new).waiting.due ≡ (inner_of inner.old).waiting.due }
    ensures spent { IsErrOf result BusFault.Spent → ⊥ }
    ensures err { OnErr result (inner_of inner.new ≡ inner_of inner.old) }
{
    let names = &inner.names;
    match free_name(inner.alloc, names, m)? {
        Some(name) => claim_in_place(inner, conn, m, &name),
        None => rename_in_place(inner, BusMember::RequestName, conn, m),
    }
}
