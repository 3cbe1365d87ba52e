//! The answer to a call of each member.

ghost use Rattle.std.specs.Prelude.{◌≡◌, ℕ, List, [], ◌∷◌, true, Option, None, Ok, IfOk, OnErr};
ghost use Rattle.atspi_types.specs.Data.{text_data};
ghost use Rattle.atspi_marshal_in_place.specs.Items.{fields_data};
ghost use Rattle.atspi_message_in_place.specs.View.{envelope_at};
ghost use Rattle.atspi_match.specs.declared.condition.Condition.{Condition};
ghost use Rattle.atspi_match.specs.routing.Answers as answers;
ghost use Rattle.atspi_match.specs.routing.Members as members;
ghost use Rattle.atspi_bus_answers.specs.Answered.{with_parts, reply_of, is_told, IsAnswer, IsSpokenOf, AreNamed};

use crate::BusError;
use crate::arguments::{first_text, second_number};
use crate::listing::{list_names, list_queued_owners};
use crate::owning::{get_name_owner, name_has_owner};
use crate::requesting::{release_name, request_name};
use crate::rules::{add_match, remove_match};
use crate::values::one;
use atspi_base::{NoMemory, Text};
use atspi_marshal_in_place::Fields;
use atspi_match::RuleIndex;
use atspi_match::routing::BusMember;
use atspi_message::Message;
use atspi_message_in_place::MessageRef;
use atspi_names::Names;
use atspi_types::{Value, Values};
use std::alloc::Global;

/// What a call gets.
#[derive(Drop)]
pub enum Reply {
    /// These values.
    Returns(Values),
    /// This error.
    Fails(BusError),
}

/// GetId: the 32 digits of the bus.
fn get_id(alloc: Global) -> Result<Reply, NoMemory>
    ensures { IfOk result (λ reply. reply_of reply ≡ answers.returns (text_data answers.bus_id ∷ [])) }
{
    let id = Text::of(alloc, "61747370693200000000000000000001")?;
    Ok(Reply::Returns(one(alloc, Value::Text(id))?))
}

/// The answer to a call that only asks.
fn tell(alloc: Global, member: BusMember, names: &Names, args: Fields) -> Result<Reply, NoMemory>
    requires told { is_told member ≡ true }
    requires named { AreNamed names.now.lists }
    ensures { IfOk result (λ reply. reply_of reply
        ≡ (answers.answers member (with_parts names.now []) 0 (fields_data args.entry) None).reply) }
{
    match member {
        BusMember::Hello => Ok(Reply::Fails(BusError::Failed)),
        BusMember::NameHasOwner => name_has_owner(alloc, names, first_text(args)),
        BusMember::GetNameOwner => get_name_owner(alloc, names, first_text(args)),
        BusMember::ListNames => list_names(alloc, names),
        BusMember::ListQueuedOwners => list_queued_owners(alloc, names, first_text(args)),
        BusMember::GetId => get_id(alloc),
        BusMember::Ping => Ok(Reply::Returns(Values::new(alloc))),
        BusMember::RequestName
        | BusMember::ReleaseName
        | BusMember::AddMatch
        | BusMember::RemoveMatch => unreachable!(),
    }
}

/// The answer to a connection's call of a member: what it does to names and rules, what is told before the reply, which
/// goes behind what was told already, and the reply (D-Bus Specification, "Message Bus Messages"). After want of memory
/// names, rules and what was told are as before.
pub fn answer(
    alloc: Global,
    member: BusMember,
    names: &mut Names,
    rules: &mut RuleIndex,
    conn: u32,
    m: &MessageRef,
    told: &mut Vec<Message>,
) -> Result<Reply, NoMemory>
    requires asked { members.member_of (envelope_at m.now) ≡ Ok member }
    requires named { AreNamed names.old.lists }
    ensures ok { IfOk result (λ reply. (rule : Option (List Condition))
        × IsSpokenOf member (fields_data m.now.body) rule
        × IsAnswer (answers.answers member (with_parts names.old rules.old) conn (fields_data m.now.body) rule)
        names.new rules.new told.old.items told.new.items reply) }
    ensures err { OnErr result ((names.new ≡ names.old) × (rules.new ≡ rules.old)) }
    ensures untold { OnErr result (told.new.items ≡ told.old.items) }
    ensures named { AreNamed names.new.lists }
{
    let text = first_text(m.body);
    match member {
        BusMember::RequestName => {
            let flags = second_number(m.body);
            request_name(alloc, names, conn, text, flags, told)
        }
        BusMember::ReleaseName => release_name(alloc, names, conn, text, told),
        BusMember::AddMatch => add_match(alloc, rules, conn, text),
        BusMember::RemoveMatch => remove_match(alloc, rules, conn, text),
        BusMember::Hello
        | BusMember::NameHasOwner
        | BusMember::GetNameOwner
        | BusMember::ListNames
        | BusMember::ListQueuedOwners
        | BusMember::GetId
        | BusMember::Ping => tell(alloc, member, names, m.body),
    }
}
