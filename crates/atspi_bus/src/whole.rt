//! Steps that are done whole or not at all: after a fault a bus is as it was before.

ghost use Rattle.std.specs.Prelude.{◌≡◌, ◌<◌, List, Option, IfOk, IsErrOf, MatchBool, OnOk, OnErr};
ghost use Rattle.atspi_message.specs.Rules.{MeetsRules};
ghost use Rattle.atspi_message_in_place.specs.View.{envelope_at};
ghost use Rattle.atspi_match.specs.declared.condition.Condition.{Condition};
ghost use Rattle.atspi_match.specs.routing.Queues.{takes, leaves};
ghost use Rattle.atspi_bus_steps.specs.InnerBus.{inner_of, state_of};
ghost use Rattle.atspi_bus_steps.specs.Sound.{IsSound};
ghost use Rattle.atspi_bus_steps.specs.Spoken.{IsRuleTaken};
ghost use Rattle.atspi_bus.specs.Exclusive.{IsExclusive};

use crate::answering::answer_in_place;
use crate::leaving::leave_in_place;
use atspi_bus_steps::{BusFault, Inner};
use atspi_message_in_place::MessageRef;
use std::mem;

/// A bus takes a message on a copy of itself, which takes its place at the end.
fn take_on_copy(inner: &mut Inner, conn: u32, m: &MessageRef) -> Result<(), BusFault>
    requires sound { IsSound (state_of inner.old) }
    requires meets { MeetsRules (envelope_at m.now) }
    ensures ok { OnOk result
        ((rule : Option (List Condition)) × IsRuleTaken (state_of inner.old) conn (envelope_at m.now) rule
        × (inner_of inner.new ≡ takes (inner_of inner.old) conn (envelope_at m.now) rule)) }
    ensures sound { IsSound (state_of inner.new) }
    ensures spent { IsErrOf result BusFault.Spent
        → (rule : Option (List Condition)) × IsRuleTaken (state_of inner.old) conn (envelope_at m.now) rule
        × (4294967296 < (takes (inner_of inner.old) conn (envelope_at m.now) rule).state.next) }
    ensures err { OnErr result (inner_of inner.new ≡ inner_of inner.old) }
{
    let mut after = inner.copy()?;
    match after.take(conn, m) {
        Ok(()) => {
            mem::swap(inner, &mut after);
            Ok(())
        }
        Err(fault) => Err(fault),
    }
}

/// A bus takes a message in place, one that is passed on or one that it answers itself, where that can be done, and
/// answers whether it was. Where it was not, and after a fault, all is as before.
fn take_in_place(inner: &mut Inner, conn: u32, m: &MessageRef) -> Result<bool, BusFault>
    requires sound { IsSound (state_of inner.old) }
    requires meets { MeetsRules (envelope_at m.now) }
    ensures ok { IfOk result (λ went. MatchBool went
        ((rule : Option (List Condition)) × IsRuleTaken (state_of inner.old) conn (envelope_at m.now) rule
        × (inner_of inner.new ≡ takes (inner_of inner.old) conn (envelope_at m.now) rule))
        (inner_of inner.new ≡ inner_of inner.old)) }
    ensures sound { IsSound (state_of inner.new) }
    ensures spent { IsErrOf result BusFault.Spent → ⊥ }
    ensures err { OnErr result (inner_of inner.new ≡ inner_of inner.old) }
{
    match inner.take_in_place(conn, m) {
        Ok(true) => Ok(true),
        Ok(false) => answer_in_place(inner, conn, m),
        Err(fault) => Err(fault),
    }
}

/// A bus takes a message: in place where it can, and on a copy of itself where it cannot.
pub fn take_whole(inner: &mut Inner, conn: u32, m: &MessageRef) -> Result<(), BusFault>
    requires sound { IsSound (state_of inner.old) }
    requires meets { MeetsRules (envelope_at m.now) }
    ensures ok { OnOk result
        ((rule : Option (List Condition)) × IsRuleTaken (state_of inner.old) conn (envelope_at m.now) rule
        × (inner_of inner.new ≡ takes (inner_of inner.old) conn (envelope_at m.now) rule)) }
    ensures sound { IsSound (state_of inner.new) }
    ensures spent { IsErrOf result BusFault.Spent
        → (rule : Option (List Condition)) × IsRuleTaken (state_of inner.old) conn (envelope_at m.now) rule
        × (4294967296 < (takes (inner_of inner.old) conn (envelope_at m.now) rule).state.next) }
    ensures err { OnErr result (inner_of inner.new ≡ inner_of inner.old) }
{
    match take_in_place(inner, conn, m) {
        Ok(true) => Ok(()),
        Ok(false) => take_on_copy(inner, conn, m),
        Err(fault) => Err(fault),
    }
}

/// A connection leaves a copy of a bus, which takes its place at the end.
fn leave_on_copy(inner: &mut Inner, conn: u32) -> Result<(), BusFault>
    requires sound { IsSound (state_of inner.old) }
    ensures ok { OnOk result (inner_of inner.new ≡ leaves (inner_of inner.old) conn) }
    ensures sound { IsSound (state_of inner.new) }
    ensures spent { IsErrOf result BusFault.Spent → 4294967296 < (leaves (inner_of inner.old) conn).state.next }
    ensures err { OnErr result (inner_of inner.new ≡ inner_of inner.old) }
{
    let mut after = inner.copy()?;
    match after.part_with(conn) {
        Ok(()) => {
            mem::swap(inner, &mut after);
            Ok(())
        }
        Err(fault) => Err(fault),
    }
}

/// A connection leaves: in place where it can, and on a copy of the bus where it cannot, in the same way.
pub fn leave_whole(inner: &mut Inner, conn: u32) -> Result<(), BusFault>
    requires exclusive { IsExclusive (state_of inner.old).owners }
    requires sound { IsSound (state_of inner.old) }
    ensures ok { OnOk result (inner_of inner.new ≡ leaves (inner_of inner.old) conn) }
    ensures sound { IsSound (state_of inner.new) }
    ensures spent { IsErrOf result BusFault.Spent → 4294967296 < (leaves (inner_of inner.old) conn).state.next }
    ensures err { OnErr result (inner_of inner.new ≡ inner_of inner.old) }
{
    match leave_in_place(inner, conn) {
        Ok(true) => Ok(()),
        Ok(false) => leave_on_copy(inner, conn),
        Err(fault) => Err(fault),
    }
}
