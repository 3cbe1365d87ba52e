//! The bus takes what comes up a link.

ghost use Rattle.std.specs.Prelude.{◌≡◌, ◌<◌, ◌≤◌, ◌+◌, ◌^◌, ◌∷◌, List, length, IfOk, IfSome, OnOk, OnErr, IsErrOf};
ghost use Rattle.atspi_message.specs.Rules.{MeetsRules};
ghost use Rattle.atspi_message_in_place.specs.View.{envelope_at};
ghost use Rattle.atspi_tree_model.specs.Forest.{first_of};
ghost use Rattle.atspi_match.specs.routing.BusState.{unique_of};
ghost use Rattle.atspi_bus_steps.specs.InnerBus.{inner_of, state_of};
ghost use Rattle.atspi_bus_steps.specs.Sound.{IsSound};
ghost use Rattle.atspi_trace.specs.World.{here, End, Said, World};
ghost use Rattle.atspi_trace.specs.Ends.{end_at};
ghost use Rattle.atspi_trace.specs.Causes.{does, routes};
ghost use Rattle.atspi_trace.specs.Work.{moving_up};
ghost use Rattle.atspi_world_moves.specs.Carried.{IsCarried, IsDone};
ghost use Rattle.atspi_world_moves.specs.Halted.{HasRegistryFirst, IsLostBy, IsLostOn, IsSpentBy};
ghost use Rattle.atspi_world_moves.specs.inner.Halted.{IsLostNext};
ghost use Rattle.atspi_world_moves.specs.Halted.{IsSpentOn};
ghost use Rattle.atspi_world_moves.specs.inner.Halted.{IsSpentNext};
ghost use Rattle.atspi_world_moves.specs.Linked.{IsLinked};
ghost use Rattle.atspi_world_moves.specs.Moving.{MovesAll, MovesAt};
ghost use Rattle.atspi_world_moves.specs.inner.Moving.{IsLacking, MovesSome};
ghost use Rattle.atspi_world_moves.specs.inner.Routed.{IsSpentTaking, IsTaken, RoutesFront, SpendsAtFront, TakesFront};

use crate::carrier::Carrier;
use crate::fault::CarryFault;
use atspi_base::NoMemory;
use atspi_bus_steps::Inner;
use atspi_script_lines::Party;
use atspi_trace_events::Event;
use atspi_world_links::{Link, Post, Standing, Whole, first_message, note};
use std::alloc::Global;

/// The bus takes the first message of a link, apart from the closings that this brings; answers how many bytes it had,
/// none where there is no message.
fn take_front(
    bus: &mut Inner,
    link: &Link,
    conn: u32,
    sender: Party,
    trace: &mut Vec<Event>,
) -> Result<Option<usize>, CarryFault>
    requires sound { IsSound (state_of bus.old) }
    ensures sound { IfOk result (λ len. IsSound (state_of bus.new)) }
    ensures within { IfOk result (λ len. IfSome len (λ n. n ≤ length link.now)) }
    ensures takes { IfOk result
        (λ len. TakesFront link.now (inner_of bus.old) (inner_of bus.new) conn sender trace.old.items trace.new.items
        len) }
    ensures spent { IsErrOf result CarryFault.Spent
        → SpendsAtFront link.now (inner_of bus.old) conn sender trace.old.items trace.new.items }
    ensures calm { IsErrOf result CarryFault.RegistryLost → ⊥ }
{
    match first_message(link.as_slice()) {
        None => Ok(None),
        Some(first) => match take(bus, conn, sender, first, trace) {
            Ok(()) => Ok(Some(first.len)),
            Err(fault) => Err(fault),
        },
    }
}

/// The bus takes a message, apart from the closings that this brings, and that is told.
fn take(
    bus: &mut Inner,
    conn: u32,
    sender: Party,
    first: Whole<'_>,
    trace: &mut Vec<Event>,
) -> Result<(), CarryFault>
    requires sound { IsSound (state_of bus.old) }
    requires meets { MeetsRules (envelope_at first.message) }
    ensures sound { OnOk result (IsSound (state_of bus.new)) }
    ensures taken { OnOk result
        (IsTaken (envelope_at first.entry.message) (inner_of bus.old) (inner_of bus.new) conn sender trace.old.items
        trace.new.items) }
    ensures spent { IsErrOf result CarryFault.Spent
        → IsSpentTaking (envelope_at first.entry.message) (inner_of bus.old) conn sender trace.old.items
        trace.new.items }
    ensures calm { IsErrOf result CarryFault.RegistryLost → ⊥ }
{
    note(
        trace,
        Event::Got {
            taker: Party::Bus,
            sender,
            serial: first.message.serial,
        },
    )?;
    match bus.step(conn, &first.message) {
        Ok(()) => Ok(()),
        Err(fault) => Err(CarryFault::from(fault)),
    }
}

/// The unique name of a connection is kept once the bus gave it.
fn keep_name(alloc: Global, bus: &Inner, post: &mut Post, conn: u32) -> Result<(), NoMemory>
    ensures { OnOk result
        (post.new ≡ record post.old { name = first_of post.old.name (unique_of (state_of bus.now).owners conn) }) }
{
    if post.name.is_some() {
        return Ok(());
    }
    if let Some(name) = bus.unique_name(conn) {
        post.name = Some(name.copy(alloc)?);
    }
    Ok(())
}

/// The bus takes the first message of a connection's link, apart from the closings that this brings, and keeps the name
/// that it gave. Nothing where there is no message.
fn route_front(
    alloc: Global,
    bus: &mut Inner,
    post: &mut Post,
    conn: u32,
    trace: &mut Vec<Event>,
) -> Result<(), CarryFault>
    requires sound { IsSound (state_of bus.old) }
    ensures sound { OnOk result (IsSound (state_of bus.new)) }
    ensures routes { OnOk result
        (RoutesFront (inner_of bus.old) (inner_of bus.new) conn post.old post.new trace.old.items trace.new.items) }
    ensures spent { IsErrOf result CarryFault.Spent
        → SpendsAtFront post.old.up (inner_of bus.old) conn post.old.who trace.old.items trace.new.items }
    ensures stays { IsErrOf result CarryFault.Spent → post.new ≡ post.old }
    ensures calm { IsErrOf result CarryFault.RegistryLost → ⊥ }
{
    match take_front(bus, &post.up, conn, post.who, trace) {
        Ok(Some(len)) => {
            post.up.pop(len);
            post.begun = 0;
            keep_name(alloc, bus, post, conn)?;
            Ok(())
        }
        Ok(None) => Ok(()),
        Err(fault) => Err(fault),
    }
}

/// How many bytes the first message of a link lacks at the bus. None where no message waits.
fn lacking(post: &Post) -> Option<usize>
    ensures exact { IsLacking post.now result }
    ensures room { IfSome result (λ len. 0 < len → len + post.now.begun < 2 ^ 64) }
{
    match first_message(post.up.as_slice()) {
        None => None,
        Some(first) => Some(first.len.saturating_sub(post.begun)),
    }
}

impl Carrier {
    /// The bus takes the first message of a connection's up link, if there is one. After want of memory nothing is
    /// known of the carrier.
    pub(crate) fn route_apart(&mut self, conn: u32) -> Result<(), CarryFault>
        requires sound { IsSound (state_of self.old.bus) }
        ensures sound { OnOk result (IsSound (state_of self.new.bus)) }
        ensures does { OnOk result
            ((w : World) (e : End) (said : Said) (rest : List Said)
            → IsCarried w (inner_of self.old.bus) self.old.posts.items
            → end_at w.ends conn ≡ Some e → e.up ≡ said ∷ rest
            → IsDone (does w (routes conn)) (inner_of self.new.bus) self.new.posts.items self.old.trace.items
            self.new.trace.items) }
        ensures linked { OnOk result
            ((w : World) (e : End) (said : Said) (rest : List Said)
            → IsCarried w (inner_of self.old.bus) self.old.posts.items
            → IsLinked w self.old.at_end.items → end_at w.ends conn ≡ Some e → e.standing ≡ here → e.up ≡ said ∷ rest
            → IsLinked (does w (routes conn)).world self.new.at_end.items) }
        ensures lost { IsErrOf result CarryFault.RegistryLost → (w : World) (e : End) (said : Said) (rest : List Said)
            → IsCarried w (inner_of self.old.bus) self.old.posts.items
            → HasRegistryFirst w.ends → end_at w.ends conn ≡ Some e → e.up ≡ said ∷ rest
            → IsLostBy (does w (routes conn)) self.new.posts.items self.old.trace.items self.new.trace.items }
        ensures spent { IsErrOf result CarryFault.Spent → (w : World) (e : End) (said : Said) (rest : List Said)
            → IsCarried w (inner_of self.old.bus) self.old.posts.items
            → end_at w.ends conn ≡ Some e → e.up ≡ said ∷ rest
            → IsSpentBy w (does w (routes conn)) self.new.posts.items self.old.trace.items self.new.trace.items }
    {
        let place = conn as usize;
        if place >= self.posts.len() {
            return Ok(());
        }
        let rounds = self.bus.joined_count();
        let post = &mut self.posts[place];
        route_front(self.alloc, &mut self.bus, post, conn, &mut self.trace)?;
        self.bus.settle(rounds)?;
        self.tell_bus()?;
        Ok(())
    }

    /// At most so many bytes of an up link are moved, and those complete its first message, which the bus takes, or
    /// they do not. Answers how many more may be moved, none where no message is completed.
    fn move_some(&mut self, conn: u32, most: usize) -> Result<Option<usize>, CarryFault>
        requires sound { IsSound (state_of self.old.bus) }
        ensures sound { OnOk result (IsSound (state_of self.new.bus)) }
        ensures moves { IfOk result
            (λ left. MovesSome (inner_of self.old.bus) (inner_of self.new.bus) self.old.posts.items self.new.posts.items
            self.old.at_end.items self.new.at_end.items conn most left
            self.old.trace.items self.new.trace.items) }
        ensures lost { IsErrOf result CarryFault.RegistryLost → (w : World)
            → IsCarried w (inner_of self.old.bus) self.old.posts.items → HasRegistryFirst w.ends
            → MovesAt self.old.posts.items conn
            → IsLostNext w (moving_up conn most) self.new.posts.items self.old.trace.items self.new.trace.items }
        ensures spent { IsErrOf result CarryFault.Spent → (w : World)
            → IsCarried w (inner_of self.old.bus) self.old.posts.items
            → MovesAt self.old.posts.items conn
            → IsSpentNext w (moving_up conn most) self.new.posts.items self.old.trace.items self.new.trace.items }
    {
        let place = conn as usize;
        if place >= self.posts.len() {
            return Ok(None);
        }
        let Some(lacking) = lacking(&self.posts[place]) else {
            return Ok(None);
        };
        if most < lacking {
            let post = &mut self.posts[place];
            post.begun = post.begun.saturating_add(most);
            return Ok(None);
        }
        self.route_apart(conn)?;
        Ok(Some(most - lacking))
    }

    /// Moves at most so many bytes of an up link; the bus takes what they complete. After want of memory nothing is
    /// known of the carrier.
    pub(crate) fn move_up_apart(&mut self, conn: u32, most: u32) -> Result<(), CarryFault>
        requires sound { IsSound (state_of self.old.bus) }
        ensures sound { OnOk result (IsSound (state_of self.new.bus)) }
        ensures moves { OnOk result
            (MovesAll (inner_of self.old.bus) (inner_of self.new.bus) self.old.posts.items self.new.posts.items
            self.old.at_end.items self.new.at_end.items conn most self.old.trace.items self.new.trace.items) }
        ensures lost { IsErrOf result CarryFault.RegistryLost → (w : World)
            → IsCarried w (inner_of self.old.bus) self.old.posts.items → IsLinked w self.old.at_end.items
            → HasRegistryFirst w.ends → MovesAt self.old.posts.items conn
            → IsLostOn w (moving_up conn most) self.new.posts.items self.old.trace.items self.new.trace.items }
        ensures spent { IsErrOf result CarryFault.Spent → (w : World)
            → IsCarried w (inner_of self.old.bus) self.old.posts.items → IsLinked w self.old.at_end.items
            → MovesAt self.old.posts.items conn
            → IsSpentOn w (moving_up conn most) self.new.posts.items self.old.trace.items self.new.trace.items }
    {
        let mut left = most as usize;
        // each message has a byte that was not moved yet
        for _message in 0..most {
            match self.move_some(conn, left)? {
                Some(rest) => left = rest,
                None => return Ok(()),
            }
        }
        Ok(())
    }
}
