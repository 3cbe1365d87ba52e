//! A connection leaves in place, which costs no copy of the bus: what is told of it is said first, to those who stay,
//! and then it goes, which cannot fail.

ghost use Rattle.std.specs.Prelude.{◌≡◌, ◌++◌, not, ◌==◌, filter, map, Some, IfOk, OnOk, OnErr, IsErrOf, MatchBool};
ghost use Rattle.atspi_message.specs.Envelope.{envelope_of};
ghost use Rattle.atspi_names.specs.Owners.{after_gone};
ghost use Rattle.atspi_match.specs.routing.BusState as states;
ghost use Rattle.atspi_match.specs.routing.Queues.{leaves};
ghost use Rattle.atspi_match.specs.routing.Steps as steps;
ghost use Rattle.atspi_bus_steps.specs.Farewell.{name_passes_on, names_pass_on};
ghost use Rattle.atspi_bus_steps.specs.InnerBus.{inner_of, state_of};
ghost use Rattle.atspi_bus_steps.specs.Sound.{IsSound};
ghost use Rattle.atspi_bus.specs.Exclusive.{IsExclusive};

use crate::in_place::say_each;
use atspi_base::NoMemory;
use atspi_base::valid_names::BusName;
use atspi_bus_answers::{next_owner, owner_changed};
use atspi_bus_steps::{BusFault, Inner, tell_acquired, tell_callers, unique_of};
use atspi_message::Message;
use atspi_names::Names;
use std::alloc::Global;
use std::collections::VecDeque;
use std::mem;

/// Takes a connection out of those who have joined.
fn take_out(joined: &mut Vec<u32>, conn: u32)
    ensures { joined.new.items ≡ filter (λ c. not (c == conn)) joined.old.items }
{
    joined.retain(|c| *c != conn);
}

/// Those who have joined, but for one.
fn others(alloc: Global, joined: &[u32], conn: u32) -> Result<Vec<u32>, NoMemory>
    ensures { IfOk result (λ stay. stay.items ≡ filter (λ c. not (c == conn)) joined.now) }
{
    let mut stay = joined.to_vec(alloc)?;
    take_out(&mut stay, conn);
    Ok(stay)
}

/// A name is told the owner that it has once the connection has left.
fn tell_heir(
    alloc: Global,
    names: &Names,
    conn: u32,
    unique: &BusName,
    name: &BusName,
    told: &mut Vec<Message>,
) -> Result<(), NoMemory>
    ensures { OnOk result
        (map envelope_of told.new.items
        ≡ map envelope_of told.old.items ++ name_passes_on (after_gone names.now conn) unique.now name.now) }
{
    let next = next_owner(names.queue(name), conn);
    tell_acquired(alloc, names, name, next, told)?;
    let owner = unique_of(names, next);
    told.push(owner_changed(alloc, name, Some(unique), owner)?)?;
    Ok(())
}

/// Each name is told the owner that it has once the connection has left.
fn tell_heirs(
    alloc: Global,
    names: &Names,
    conn: u32,
    unique: &BusName,
    owned: &[BusName],
    told: &mut Vec<Message>,
) -> Result<(), NoMemory>
    ensures { OnOk result
        (map envelope_of told.new.items
        ≡ map envelope_of told.old.items ++ names_pass_on (after_gone names.now conn) unique.now owned.now) }
{
    for name in owned {
        tell_heir(alloc, names, conn, unique, name, told)?;
    }
    Ok(())
}

/// What is told where a connection leaves: nothing of one without a unique name.
fn farewell(inner: &Inner, conn: u32) -> Result<Vec<Message>, NoMemory>
    ensures { IfOk result
        (λ told. map envelope_of told.items
        ≡ steps.farewell (state_of inner.now) (after_gone (state_of inner.now).owners conn) conn
        (states.unique_of (state_of inner.now).owners conn)) }
{
    let alloc = inner.alloc;
    let names = &inner.names;
    let mut told = Vec::new(alloc);
    let Some(unique) = names.unique_name(conn) else {
        return Ok(told);
    };
    tell_callers(alloc, names, &inner.calls, conn, &mut told)?;
    let owned = names.owned(conn)?;
    tell_heirs(alloc, names, conn, unique, owned.as_slice(), &mut told)?;
    told.push(owner_changed(alloc, unique, Some(unique), None)?)?;
    Ok(told)
}

/// A connection leaves in place, while nobody is to be closed and each receiver of what is told has room for it. It
/// answers whether that is so. Where it is not, and after a fault, all is as before.
pub fn leave_in_place(inner: &mut Inner, conn: u32) -> Result<bool, BusFault>
    requires exclusive { IsExclusive (state_of inner.old).owners }
    requires sound { IsSound (state_of inner.old) }
    ensures ok { IfOk result (λ went. MatchBool went
        (inner_of inner.new ≡ leaves (inner_of inner.old) conn)
        (inner_of inner.new ≡ inner_of inner.old)) }
    ensures sound { IsSound (state_of inner.new) }
    ensures spent { IsErrOf result BusFault.Spent → ⊥ }
    ensures err { OnErr result (inner_of inner.new ≡ inner_of inner.old) }
{
    if inner.queues.first_due().is_some() {
        return Ok(false);
    }
    let told = farewell(inner, conn)?;
    let stay = others(inner.alloc, &inner.joined, conn)?;
    let joined = mem::replace(&mut inner.joined, stay);
    let mut rest = VecDeque::from(told);
    match say_each(inner, &mut rest) {
        Ok(true) => {
            inner.forget(conn);
            Ok(true)
        }
        Ok(false) => {
            inner.joined = joined;
            Ok(false)
        }
        Err(fault) => {
            inner.joined = joined;
            Err(fault)
        }
    }
}
