//! Calls of the bus's own members.

ghost use Rattle.std.specs.Prelude.{◌≡◌, ◌<◌, List, map, Ok, None, Option, IfOk, OnOk, IsErrOf};
ghost use Rattle.std.specs.FinMap as finmap;
ghost use Rattle.atspi_message.specs.Envelope.{envelope_of};
ghost use Rattle.atspi_message.specs.Rules.{MeetsRules};
ghost use Rattle.atspi_message_in_place.specs.View.{envelope_at};
ghost use Rattle.atspi_match.specs.declared.condition.Condition.{Condition};
ghost use Rattle.atspi_match.specs.routing.Queues.{stepped};
ghost use Rattle.atspi_match.specs.routing.Members as members;
ghost use Rattle.atspi_match.specs.routing.Steps as steps;
ghost use Rattle.atspi_bus_answers.specs.Answered.{IsSpokenOf};
ghost use Rattle.atspi_bus_steps.specs.InnerBus.{inner_of, state_of};
ghost use Rattle.atspi_bus_steps.specs.Sound.{IsSound};
ghost use Rattle.atspi_bus_steps.specs.Spoken.{IsRuleOf, answered_by};
ghost use Rattle.atspi_bus_steps.specs.Greeting.{greeting};

use crate::BusFault;
use crate::inner::Inner;
use crate::saying::expects_reply;
use crate::standing::{name_value, one};
use atspi_base::NoMemory;
use atspi_base::valid_names::BusName;
use atspi_bus_answers::{Reply, answer, member_of, name_acquired, owner_changed, return_to};
use atspi_match::routing::BusMember;
use atspi_message::Message;
use atspi_message_in_place::MessageRef;
use atspi_names::NamesFault;
use std::alloc::Global;

/// What is told where a connection gets its unique name: its reply, where it expects one, and then the name, to it and
/// to all that ask for it.
pub fn greeting(alloc: Global, name: &BusName, m: &MessageRef) -> Result<Vec<Message>, NoMemory>
    ensures { IfOk result (λ told. map envelope_of told.items ≡ greeting name.now (envelope_at m.now)) }
{
    let mut told = Vec::new(alloc);
    if expects_reply(m) {
        let values = one(alloc, name_value(alloc, name)?)?;
        told.push(return_to(alloc, Some(name), m.serial, values)?)?;
    }
    told.push(name_acquired(alloc, Some(name), name)?)?;
    told.push(owner_changed(alloc, name, None, Some(name))?)?;
    Ok(told)
}

impl Inner {
    /// Hello: the connection gets its unique name.
    pub(crate) fn greet(&mut self, conn: u32, m: &MessageRef) -> Result<(), BusFault>
        requires sound { IsSound (state_of self.old) }
        requires meets { MeetsRules (envelope_at m.now) }
        requires unnamed { finmap.get (state_of self.old).owners.unique conn ≡ None }
        ensures ok { OnOk result
            (inner_of self.new
            ≡ stepped (inner_of self.old) (steps.greets (state_of self.old) conn (envelope_at m.now))) }
        ensures sound { OnOk result (IsSound (state_of self.new)) }
        ensures spent { IsErrOf result BusFault.Spent
            → 4294967296 < (steps.greets (state_of self.old) conn (envelope_at m.now)).state.next }
    {
        let name = match self.names.hello(conn) {
            Ok(name) => name,
            Err(NamesFault::Full) => return Err(BusFault::Spent),
            Err(NamesFault::NoMemory) => return Err(BusFault::NoMemory),
        };
        let told = greeting(self.alloc, &name, m)?;
        self.say(told)
    }

    /// The answer to a call of a member, with what it does to names and rules.
    fn answer(&mut self, member: BusMember, conn: u32, m: &MessageRef) -> Result<(), BusFault>
        requires sound { IsSound (state_of self.old) }
        requires meets { MeetsRules (envelope_at m.now) }
        requires asked { members.member_of (envelope_at m.now) ≡ Ok member }
        ensures ok { OnOk result ((rule : Option (List Condition)) × IsSpokenOf member (envelope_at m.now).body rule
            × (inner_of self.new
            ≡ stepped (inner_of self.old) (answered_by member (state_of self.old) conn (envelope_at m.now) rule))) }
        ensures sound { OnOk result (IsSound (state_of self.new)) }
        ensures spent { IsErrOf result BusFault.Spent
            → (rule : Option (List Condition)) × IsSpokenOf member (envelope_at m.now).body rule
            × (4294967296 < (answered_by member (state_of self.old) conn (envelope_at m.now) rule).state.next) }
    {
        let alloc = self.alloc;
        let mut told = Vec::new(alloc);
        let (names, rules) = (&mut self.names, &mut self.rules);
        let reply = answer(alloc, member, names, rules, conn, m, &mut told)?;
        self.conclude(conn, m, told, reply)
    }

    /// A call to the bus: of one of its members, or refused.
    pub(crate) fn call(&mut self, conn: u32, m: &MessageRef) -> Result<(), BusFault>
        requires sound { IsSound (state_of self.old) }
        requires meets { MeetsRules (envelope_at m.now) }
        ensures ok { OnOk result ((rule : Option (List Condition)) × IsRuleOf (envelope_at m.now) rule
            × (inner_of self.new
            ≡ stepped (inner_of self.old) (steps.called (state_of self.old) conn (envelope_at m.now) rule))) }
        ensures sound { OnOk result (IsSound (state_of self.new)) }
        ensures spent { IsErrOf result BusFault.Spent
            → (rule : Option (List Condition)) × IsRuleOf (envelope_at m.now) rule
            × (4294967296 < (steps.called (state_of self.old) conn (envelope_at m.now) rule).state.next) }
    {
        match member_of(m) {
            Ok(member) => self.answer(member, conn, m),
            Err(error) => {
                let none = Vec::new(self.alloc);
                self.conclude(conn, m, none, Reply::Fails(error))
            }
        }
    }
}
