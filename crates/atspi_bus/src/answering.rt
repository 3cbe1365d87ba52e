//! What the bus answers itself, in place: a call costs what it brings, and not a copy of the bus.

ghost use Rattle.std.specs.Prelude.{◌≡◌, false, true, List, Ok, Option, IfOk, IsSome, OnErr, IsErrOf, MatchBool};
ghost use Rattle.atspi_message.specs.Rules.{MeetsRules};
ghost use Rattle.atspi_message_in_place.specs.View.{envelope_at};
ghost use Rattle.atspi_match.specs.declared.condition.Condition.{Condition};
ghost use Rattle.atspi_match.specs.routing.Answers as answers;
ghost use Rattle.atspi_match.specs.routing.BusState.{unique_of};
ghost use Rattle.atspi_match.specs.routing.Members as members;
ghost use Rattle.atspi_match.specs.routing.Queues.{stepped, takes};
ghost use Rattle.atspi_match.specs.routing.Routing as routing;
ghost use Rattle.atspi_match.specs.routing.Steps as steps;
ghost use Rattle.atspi_bus_answers.specs.Answered.{IsSpokenOf, AreNamed, is_told, reply_of};
ghost use Rattle.atspi_bus_steps.specs.InnerBus.{inner_of, state_of};
ghost use Rattle.atspi_bus_steps.specs.Sayable.{IsTyped};
ghost use Rattle.atspi_bus_steps.specs.Sound.{IsSound};
ghost use Rattle.atspi_bus_steps.specs.Spoken.{IsRuleOf, IsRuleTaken, answered_by};
ghost use Rattle.atspi_bus.specs.inner.Changed.{IsChanged, changes_rules};

use crate::claiming::request_in_place;
use crate::in_place::{say_in_place, unsay};
use crate::renaming::{greet_in_place, rename_in_place};
use atspi_base::NoMemory;
use atspi_bus_answers::{BusError, Reply, answer, member_of};
use atspi_bus_steps::{BusFault, Inner, expects_reply, is_for_bus, is_hello, receivers};
use atspi_match::routing::BusMember;
use atspi_message_in_place::MessageRef;
use atspi_types::Values;

/// Says the reply to a call, where one is expected, and answers whether all that is due was said. Where its receiver
/// has no room for it, where no number is left, and after a fault, all is as before.
fn say_reply(inner: &mut Inner, conn: u32, m: &MessageRef, reply: Reply) -> Result<bool, BusFault>
    requires sound { IsSound (state_of inner.old) }
    requires meets { MeetsRules (envelope_at m.now) }
    requires typed { IsTyped (reply_of reply) }
    ensures ok { IfOk result (λ went. MatchBool went
        (inner_of inner.new ≡ stepped (inner_of inner.old) (steps.speaks (state_of inner.old)
        (steps.replies (state_of inner.old) conn (envelope_at m.now) (reply_of reply))))
        (inner_of inner.new ≡ inner_of inner.old)) }
    ensures sound { IsSound (state_of inner.new) }
    ensures due { (inner_of inner.new).waiting.due ≡ (inner_of inner.old).waiting.due }
    ensures spent { IsErrOf result BusFault.Spent → ⊥ }
    ensures err { OnErr result (inner_of inner.new ≡ inner_of inner.old) }
{
    if !expects_reply(m) {
        return Ok(true);
    }
    let message = inner.reply(conn, m.serial, reply)?;
    match say_in_place(inner, message)? {
        Some(_) => Ok(true),
        None => Ok(false),
    }
}

/// Answers a call that only asks.
fn tell_in_place(
    inner: &mut Inner,
    member: BusMember,
    conn: u32,
    m: &MessageRef,
) -> Result<bool, BusFault>
    requires told { is_told member ≡ true }
    requires sound { IsSound (state_of inner.old) }
    requires meets { MeetsRules (envelope_at m.now) }
    requires asked { members.member_of (envelope_at m.now) ≡ Ok member }
    ensures ok { IfOk result (λ went. MatchBool went
        ((rule : Option (List Condition)) × IsSpokenOf member (envelope_at m.now).body rule
        × (inner_of inner.new
        ≡ stepped (inner_of inner.old) (answered_by member (state_of inner.old) conn (envelope_at m.now) rule)))
        (inner_of inner.new ≡ inner_of inner.old)) }
    ensures sound { IsSound (state_of inner.new) }
    ensures due { (inner_of inner.new).waiting.due ≡ (inner_of inner.old).waiting.due }
    ensures spent { IsErrOf result BusFault.Spent → ⊥ }
    ensures err { OnErr result (inner_of inner.new ≡ inner_of inner.old) }
{
    let alloc = inner.alloc;
    let mut told = Vec::new(alloc);
    let (names, rules) = (&mut inner.names, &mut inner.rules);
    let reply = answer(alloc, member, names, rules, conn, m, &mut told)?;
    say_reply(inner, conn, m, reply)
}

/// Adds or takes out the rule that a call speaks of: the error that the call gets, or none where that is done. After
/// want of memory all is as before.
fn change_rules(
    inner: &mut Inner,
    member: BusMember,
    conn: u32,
    m: &MessageRef,
) -> Result<Option<BusError>, NoMemory>
    requires changes { changes_rules member ≡ true }
    requires named { AreNamed (state_of inner.old).owners.lists }
    requires asked { members.member_of (envelope_at m.now) ≡ Ok member }
    ensures ok { IfOk result
        (λ error. (rule : Option (List Condition)) × IsSpokenOf member (envelope_at m.now).body rule
        × IsChanged (inner_of inner.old) (inner_of inner.new)
        (answers.answers member (state_of inner.old) conn (envelope_at m.now).body rule) error) }
    ensures err { OnErr result (inner_of inner.new ≡ inner_of inner.old) }
{
    let alloc = inner.alloc;
    let mut told = Vec::new(alloc);
    let (names, rules) = (&mut inner.names, &mut inner.rules);
    match answer(alloc, member, names, rules, conn, m, &mut told)? {
        Reply::Returns(_) => Ok(None),
        Reply::Fails(error) => Ok(Some(error)),
    }
}

/// Answers AddMatch or RemoveMatch of a connection with its unique name. That it is done is said before it is done,
/// since what was said can be taken back and a rule that went out cannot be put back in its place.
fn rule_in_place(
    inner: &mut Inner,
    member: BusMember,
    conn: u32,
    m: &MessageRef,
) -> Result<bool, BusFault>
    requires changes { changes_rules member ≡ true }
    requires caller { IsSome (unique_of (state_of inner.old).owners conn) }
    requires sound { IsSound (state_of inner.old) }
    requires meets { MeetsRules (envelope_at m.now) }
    requires asked { members.member_of (envelope_at m.now) ≡ Ok member }
    ensures ok { IfOk result (λ went. MatchBool went
        ((rule : Option (List Condition)) × IsSpokenOf member (envelope_at m.now).body rule
        × (inner_of inner.new
        ≡ stepped (inner_of inner.old) (answered_by member (state_of inner.old) conn (envelope_at m.now) rule)))
        (inner_of inner.new ≡ inner_of inner.old)) }
    ensures sound { IsSound (state_of inner.new) }
    ensures due { (inner_of inner.new).waiting.due ≡ (inner_of inner.old).waiting.due }
    ensures spent { IsErrOf result BusFault.Spent → ⊥ }
    ensures err { OnErr result (inner_of inner.new ≡ inner_of inner.old) }
{
    if !expects_reply(m) {
        change_rules(inner, member, conn, m)?;
        return Ok(true);
    }
    let done = inner.reply(conn, m.serial, Reply::Returns(Values::new(inner.alloc)))?;
    let Some(said) = say_in_place(inner, done)? else {
        return Ok(false);
    };
    match change_rules(inner, member, conn, m) {
        Ok(None) => Ok(true),
        Ok(Some(error)) => {
            unsay(inner, &said);
            say_reply(inner, conn, m, Reply::Fails(error))
        }
        Err(_) => {
            unsay(inner, &said);
            Err(BusFault::NoMemory)
        }
    }
}

/// Answers a call of a member by a connection with its unique name.
fn answer_member(
    inner: &mut Inner,
    member: BusMember,
    conn: u32,
    m: &MessageRef,
) -> Result<bool, BusFault>
    requires caller { IsSome (unique_of (state_of inner.old).owners conn) }
    requires sound { IsSound (state_of inner.old) }
    requires meets { MeetsRules (envelope_at m.now) }
    requires asked { members.member_of (envelope_at m.now) ≡ Ok member }
    ensures ok { IfOk result (λ went. MatchBool went
        ((rule : Option (List Condition)) × IsSpokenOf member (envelope_at m.now).body rule
        × (inner_of inner.new
        ≡ stepped (inner_of inner.old) (answered_by member (state_of inner.old) conn (envelope_at m.now) rule)))
        (inner_of inner.new ≡ inner_of inner.old)) }
    ensures sound { IsSound (state_of inner.new) }
    ensures due { (inner_of inner.new).waiting.due ≡ (inner_of inner.old).waiting.due }
    ensures spent { IsErrOf result BusFault.Spent → ⊥ }
    ensures err { OnErr result (inner_of inner.new ≡ inner_of inner.old) }
{
    match member {
        BusMember::AddMatch | BusMember::RemoveMatch => rule_in_place(inner, member, conn, m),
        BusMember::RequestName => request_in_place(inner, conn, m),
        BusMember::ReleaseName => rename_in_place(inner, member, conn, m),
        BusMember::Hello
        | BusMember::NameHasOwner
        | BusMember::GetNameOwner
        | BusMember::ListNames
        | BusMember::ListQueuedOwners
        | BusMember::GetId
        | BusMember::Ping => tell_in_place(inner, member, conn, m),
    }
}

/// Answers a call to the bus by a connection with its unique name.
fn call_in_place(inner: &mut Inner, conn: u32, m: &MessageRef) -> Result<bool, BusFault>
    requires caller { IsSome (unique_of (state_of inner.old).owners conn) }
    requires sound { IsSound (state_of inner.old) }
    requires meets { MeetsRules (envelope_at m.now) }
    ensures ok { IfOk result (λ went. MatchBool went
        ((rule : Option (List Condition)) × IsRuleOf (envelope_at m.now) rule
        × (inner_of inner.new
        ≡ stepped (inner_of inner.old) (steps.called (state_of inner.old) conn (envelope_at m.now) rule)))
        (inner_of inner.new ≡ inner_of inner.old)) }
    ensures sound { IsSound (state_of inner.new) }
    ensures due { (inner_of inner.new).waiting.due ≡ (inner_of inner.old).waiting.due }
    ensures spent { IsErrOf result BusFault.Spent → ⊥ }
    ensures err { OnErr result (inner_of inner.new ≡ inner_of inner.old) }
{
    match member_of(m) {
        Ok(member) => answer_member(inner, member, conn, m),
        Err(error) => say_reply(inner, conn, m, Reply::Fails(error)),
    }
}

/// Refuses a call to a name that nobody owns, or lets another message to it go, and answers whether the message was
/// such a one.
fn refuse_in_place(inner: &mut Inner, conn: u32, m: &MessageRef) -> Result<bool, BusFault>
    requires sound { IsSound (state_of inner.old) }
    requires meets { MeetsRules (envelope_at m.now) }
    ensures ok { IfOk result (λ went. MatchBool went
        ((steps.is_unowned (envelope_at m.now).destination (routing.receivers (state_of inner.old) (envelope_at m.now))
        ≡ true)
        × (inner_of inner.new
        ≡ stepped (inner_of inner.old) (steps.undeliverable (state_of inner.old) conn (envelope_at m.now))))
        (inner_of inner.new ≡ inner_of inner.old)) }
    ensures sound { IsSound (state_of inner.new) }
    ensures due { (inner_of inner.new).waiting.due ≡ (inner_of inner.old).waiting.due }
    ensures spent { IsErrOf result BusFault.Spent → ⊥ }
    ensures err { OnErr result (inner_of inner.new ≡ inner_of inner.old) }
{
    if m.destination.is_none() {
        return Ok(false);
    }
    let (names, rules) = (&inner.names, &inner.rules);
    let found = receivers(inner.alloc, &inner.joined, names, rules, m)?;
    if !found.is_empty() {
        return Ok(false);
    }
    say_reply(inner, conn, m, Reply::Fails(BusError::ServiceUnknown))
}

/// Answers a message of a connection with its unique name that the bus answers itself: one that is for the bus, or to a
/// name that nobody owns.
fn answer_named(inner: &mut Inner, conn: u32, m: &MessageRef) -> Result<bool, BusFault>
    requires caller { IsSome (unique_of (state_of inner.old).owners conn) }
    requires sound { IsSound (state_of inner.old) }
    requires meets { MeetsRules (envelope_at m.now) }
    ensures ok { IfOk result (λ went. MatchBool went
        ((rule : Option (List Condition)) × IsRuleTaken (state_of inner.old) conn (envelope_at m.now) rule
        × (inner_of inner.new
        ≡ stepped (inner_of inner.old) (steps.bus_takes (state_of inner.old) conn (envelope_at m.now) rule)))
        (inner_of inner.new ≡ inner_of inner.old)) }
    ensures sound { IsSound (state_of inner.new) }
    ensures due { (inner_of inner.new).waiting.due ≡ (inner_of inner.old).waiting.due }
    ensures spent { IsErrOf result BusFault.Spent → ⊥ }
    ensures err { OnErr result (inner_of inner.new ≡ inner_of inner.old) }
{
    if !is_for_bus(m) {
        return refuse_in_place(inner, conn, m);
    }
    if m.kind != 1 {
        return Ok(true);
    }
    call_in_place(inner, conn, m)
}

/// Answers a message of a connection that the bus answers itself: its Hello, or what it sends with its unique name.
fn answer_any(inner: &mut Inner, conn: u32, m: &MessageRef) -> Result<bool, BusFault>
    requires sound { IsSound (state_of inner.old) }
    requires meets { MeetsRules (envelope_at m.now) }
    ensures ok { IfOk result (λ went. MatchBool went
        ((rule : Option (List Condition)) × IsRuleTaken (state_of inner.old) conn (envelope_at m.now) rule
        × (inner_of inner.new
        ≡ stepped (inner_of inner.old) (steps.bus_takes (state_of inner.old) conn (envelope_at m.now) rule)))
        (inner_of inner.new ≡ inner_of inner.old)) }
    ensures sound { IsSound (state_of inner.new) }
    ensures due { (inner_of inner.new).waiting.due ≡ (inner_of inner.old).waiting.due }
    ensures spent { IsErrOf result BusFault.Spent → ⊥ }
    ensures err { OnErr result (inner_of inner.new ≡ inner_of inner.old) }
{
    if inner.unique_name(conn).is_some() {
        return answer_named(inner, conn, m);
    }
    if !is_hello(m) {
        return Ok(false);
    }
    greet_in_place(inner, conn, m)
}

/// The bus answers a message of a connection in place, while nobody is to be closed and each receiver of what it says
/// has room for that. It answers whether that is so. Where it is not, and after a fault, all is as before.
pub fn answer_in_place(inner: &mut Inner, conn: u32, m: &MessageRef) -> Result<bool, BusFault>
    requires sound { IsSound (state_of inner.old) }
    requires meets { MeetsRules (envelope_at m.now) }
    ensures ok { IfOk result (λ went. MatchBool went
        ((rule : Option (List Condition)) × IsRuleTaken (state_of inner.old) conn (envelope_at m.now) rule
        × (inner_of inner.new ≡ takes (inner_of inner.old) conn (envelope_at m.now) rule))
        (inner_of inner.new ≡ inner_of inner.old)) }
    ensures sound { IsSound (state_of inner.new) }
    ensures spent { IsErrOf result BusFault.Spent → ⊥ }
    ensures err { OnErr result (inner_of inner.new ≡ inner_of inner.old) }
{
    if inner.queues.first_due().is_some() {
        return Ok(false);
    }
    answer_any(inner, conn, m)
}
