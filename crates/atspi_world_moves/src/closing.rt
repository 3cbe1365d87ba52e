//! Connections that leave, and what the bus tells of it.

ghost use Rattle.std.specs.Prelude.{◌≡◌, ◌++◌, false, [], map, None, OnOk, OnErr, IfOk, IsErrOf};
ghost use Rattle.atspi_script_lines.specs.declared.line.Party.TheVariants as parties;
ghost use Rattle.atspi_bus_steps.specs.InnerBus.{inner_of, state_of};
ghost use Rattle.atspi_bus_steps.specs.Sound.{IsSound};
ghost use Rattle.atspi_trace.specs.Entry.{entries_of};
ghost use Rattle.atspi_trace.specs.World.{here, stopped, End, World};
ghost use Rattle.atspi_trace.specs.Ends.{end_at, same_party};
ghost use Rattle.atspi_trace.specs.Carrying.{all_told, dropped_if, sent_by_bus};
ghost use Rattle.atspi_trace.specs.Causes.{does, exits, unjoins};
ghost use Rattle.atspi_world_moves.specs.Carried.{IsCarried, IsDone};
ghost use Rattle.atspi_world_links.specs.Changes.{changed_at};
ghost use Rattle.atspi_world_moves.specs.Halted.{AreNamedAs, HasRegistryFirst, IsLostBy, IsSpentBy};
ghost use Rattle.atspi_world_moves.specs.Linked.{IsLinked};
ghost use Rattle.atspi_world_moves.specs.inner.Told.{ahead, AreOthers, all_emptied, all_gone, behind_upto, bus_told};
ghost use Rattle.atspi_world_moves.specs.inner.Told.{emptied, front_upto, gone, party_in, whose};

use crate::carrier::Carrier;
use crate::fault::CarryFault;
use atspi_base::NoMemory;
use atspi_bus_steps::Inner;
use atspi_match::routing::{Closing, Why};
use atspi_message::Message;
use atspi_script_lines::Party;
use atspi_trace_events::Event;
use atspi_world_links::{Link, Post, note};

/// The bus's own messages up to a serial, the first of which is given, are told; answers the next behind them.
fn tell_own(
    bus: &mut Inner,
    trace: &mut Vec<Event>,
    first: Option<Message>,
    last: u32,
) -> Result<Option<Message>, NoMemory>
    requires { first ≡ None → (inner_of bus.old).own ≡ [] }
    ensures bus { inner_of bus.new ≡ record (inner_of bus.old) { own = (inner_of bus.new).own } }
    ensures told { IfOk result
        (λ next. entries_of trace.new.items
        ≡ entries_of trace.old.items ++ sent_by_bus (front_upto last (ahead first (inner_of bus.old)))) }
    ensures next { IfOk result
        (λ next. ahead next (inner_of bus.new) ≡ behind_upto last (ahead first (inner_of bus.old))) }
    ensures none { IfOk result (λ next. next ≡ None → (inner_of bus.new).own ≡ []) }
{
    let mut own = first;
    while let Some(message) = own {
        if message.serial > last {
            return Ok(Some(message));
        }
        note(
            trace,
            Event::Sent {
                who: Party::Bus,
                message,
            },
        )?;
        own = bus.own();
    }
    Ok(None)
}

/// All of the bus's own messages, the first of which is given, are told.
fn tell_rest(
    bus: &mut Inner,
    trace: &mut Vec<Event>,
    first: Option<Message>,
) -> Result<(), NoMemory>
    requires { first ≡ None → (inner_of bus.old).own ≡ [] }
    ensures bus { inner_of bus.new ≡ record (inner_of bus.old) { own = (inner_of bus.new).own } }
    ensures told { OnOk result
        (entries_of trace.new.items ≡ entries_of trace.old.items ++ sent_by_bus (ahead first (inner_of bus.old))) }
    ensures none { OnOk result ((inner_of bus.new).own ≡ []) }
{
    let mut own = first;
    while let Some(message) = own {
        note(
            trace,
            Event::Sent {
                who: Party::Bus,
                message,
            },
        )?;
        own = bus.own();
    }
    Ok(())
}

/// That an end was dropped at its quota is told.
fn tell_dropped(trace: &mut Vec<Event>, who: Party, why: Why) -> Result<(), NoMemory>
    ensures told { OnOk result (entries_of trace.new.items ≡ entries_of trace.old.items ++ dropped_if who why) }
{
    match why {
        Why::Quota { queued, len } => note(trace, Event::Dropped { who, queued, len }),
        Why::NotHello => Ok(()),
    }
}

/// Whether a party is the registry.
fn is_registry(who: Party) -> bool
    ensures { result ≡ same_party who parties.Registry }
{
    match who {
        Party::Registry => true,
        Party::Bus | Party::App(_) | Party::Reader(_) => false,
    }
}

impl Carrier {
    /// What was given of a message to the end of a connection is lost.
    #[tactic(auto, using(crate::proofs::Leaving::emptied_set, crate::proofs::Leaving::emptied_past))]
    fn empty(&mut self, conn: u32)
        ensures given { self.new.at_end.items ≡ changed_at conn emptied self.old.at_end.items }
        ensures bus { self.new.bus ≡ self.old.bus }
        ensures posts { self.new.posts.items ≡ self.old.posts.items }
        ensures trace { self.new.trace.items ≡ self.old.trace.items }
    {
        let place = conn as usize;
        if place >= self.at_end.len() {
            return;
        }
        self.at_end[place] = Link::new(self.alloc);
    }

    /// What waits on the link of a connection to the bus is lost. Answers who it is.
    #[tactic(auto, using(crate::proofs::Leaving::gone_set, crate::proofs::Leaving::gone_past, crate::proofs::Leaving::who_is, crate::proofs::Leaving::who_past))]
    fn clear(&mut self, conn: u32) -> Party
        ensures posts { self.new.posts.items ≡ changed_at conn gone self.old.posts.items }
        ensures bus { self.new.bus ≡ self.old.bus }
        ensures given { self.new.at_end.items ≡ self.old.at_end.items }
        ensures trace { self.new.trace.items ≡ self.old.trace.items }
        ensures who { result ≡ party_in (map whose self.old.posts.items) conn }
    {
        let place = conn as usize;
        if place >= self.posts.len() {
            return Party::Bus;
        }
        let post = &mut self.posts[place];
        let who = post.who;
        post.leave();
        who
    }

    /// What waits on the links of a connection is lost. Answers who it is.
    fn leave(&mut self, conn: u32) -> Party
        ensures given { self.new.at_end.items ≡ changed_at conn emptied self.old.at_end.items }
        ensures posts { self.new.posts.items ≡ changed_at conn gone self.old.posts.items }
        ensures bus { self.new.bus ≡ self.old.bus }
        ensures trace { self.new.trace.items ≡ self.old.trace.items }
        ensures who { result ≡ party_in (map whose self.old.posts.items) conn }
    {
        self.empty(conn);
        self.clear(conn)
    }

    /// A connection was closed by the bus, and where it was dropped that is told; answers who it is.
    fn close(&mut self, closing: Closing) -> Result<Party, NoMemory>
        ensures bus { self.new.bus ≡ self.old.bus }
        ensures posts { IfOk result (λ who. self.new.posts.items ≡ changed_at closing.conn gone self.old.posts.items) }
        ensures given { IfOk result
            (λ who. self.new.at_end.items ≡ changed_at closing.conn emptied self.old.at_end.items) }
        ensures told { IfOk result
            (λ who. entries_of self.new.trace.items
            ≡ entries_of self.old.trace.items
            ++ dropped_if (party_in (map whose self.old.posts.items) closing.conn) closing.why) }
        ensures who { IfOk result (λ who. who ≡ party_in (map whose self.old.posts.items) closing.conn) }
    {
        let who = self.leave(closing.conn);
        match tell_dropped(&mut self.trace, who, closing.why) {
            Ok(()) => Ok(who),
            Err(fault) => Err(fault),
        }
    }

    /// The bus's own messages are told, and behind those before it each closing. RegistryLost where the registry was
    /// closed, and then all is told up to that.
    pub(crate) fn tell_bus(&mut self) -> Result<(), CarryFault>
        requires sound { IsSound (state_of self.old.bus) }
        ensures sound { IsSound (state_of self.new.bus) }
        ensures bus { OnOk result (inner_of self.new.bus ≡ all_told (inner_of self.old.bus)) }
        ensures posts { OnOk result
            (self.new.posts.items ≡ all_gone (inner_of self.old.bus).closings self.old.posts.items) }
        ensures given { OnOk result
            (self.new.at_end.items ≡ all_emptied (inner_of self.old.bus).closings self.old.at_end.items) }
        ensures told { OnOk result
            (entries_of self.new.trace.items
            ≡ entries_of self.old.trace.items
            ++ bus_told (map whose self.old.posts.items) (inner_of self.old.bus).own
            (inner_of self.old.bus).closings) }
        ensures others { OnOk result (AreOthers (map whose self.old.posts.items) (inner_of self.old.bus).closings) }
        ensures lost { IsErrOf result CarryFault.RegistryLost
            → (entries_of self.new.trace.items
            ≡ entries_of self.old.trace.items
            ++ bus_told (map whose self.old.posts.items) (inner_of self.old.bus).own
            (inner_of self.old.bus).closings)
            × (AreOthers (map whose self.old.posts.items) (inner_of self.old.bus).closings → ⊥) }
        ensures names { IsErrOf result CarryFault.RegistryLost → AreNamedAs self.old.posts.items self.new.posts.items }
        ensures calm { IsErrOf result CarryFault.Spent → ⊥ }
    {
        let mut own = self.bus.own();
        while let Some(closing) = self.bus.closed() {
            own = match tell_own(&mut self.bus, &mut self.trace, own, closing.after) {
                Ok(next) => next,
                Err(fault) => return Err(CarryFault::from(fault)),
            };
            let who = match self.close(closing) {
                Ok(who) => who,
                Err(fault) => return Err(CarryFault::from(fault)),
            };
            if is_registry(who) {
                return Err(CarryFault::RegistryLost);
            }
        }
        tell_rest(&mut self.bus, &mut self.trace, own)?;
        Ok(())
    }

    /// The end of a connection stops: what waits on its link to the bus is lost. After want of memory all is as before.
    pub fn exit(&mut self, conn: u32) -> Result<(), NoMemory>
        ensures bus { self.new.bus ≡ self.old.bus }
        ensures does { OnOk result
            ((w : World) (e : End) → IsCarried w (inner_of self.old.bus) self.old.posts.items
            → end_at w.ends conn ≡ Some e
            → IsDone (does w (exits conn)) (inner_of self.new.bus) self.new.posts.items self.old.trace.items
            self.new.trace.items) }
        ensures linked { OnOk result
            ((w : World) (e : End) → IsLinked w self.old.at_end.items → end_at w.ends conn ≡ Some e → e.standing ≡ here
            → same_party e.who parties.Registry ≡ false → IsLinked (does w (exits conn)).world self.new.at_end.items) }
        ensures given { self.new.at_end.items ≡ self.old.at_end.items }
        ensures err { OnErr result
            ((self.new.posts.items ≡ self.old.posts.items) × (self.new.trace.items ≡ self.old.trace.items)) }
    {
        let place = conn as usize;
        if place >= self.posts.len() {
            return Ok(());
        }
        // it is told first, so that the connection changes last
        let who = self.posts[place].who;
        note(&mut self.trace, Event::Exit { who })?;
        let post = &mut self.posts[place];
        post.stop();
        Ok(())
    }

    /// The bus takes the end of a connection. After want of memory nothing is known of the carrier.
    pub(crate) fn part_apart(&mut self, conn: u32) -> Result<(), CarryFault>
        requires sound { IsSound (state_of self.old.bus) }
        ensures sound { OnOk result (IsSound (state_of self.new.bus)) }
        ensures does { OnOk result ((w : World) → IsCarried w (inner_of self.old.bus) self.old.posts.items
            → IsDone (does w (unjoins conn)) (inner_of self.new.bus) self.new.posts.items self.old.trace.items
            self.new.trace.items) }
        ensures linked { OnOk result
            ((w : World) (e : End) → IsCarried w (inner_of self.old.bus) self.old.posts.items
            → IsLinked w self.old.at_end.items
            → end_at w.ends conn ≡ Some e → e.standing ≡ stopped
            → IsLinked (does w (unjoins conn)).world self.new.at_end.items) }
        ensures lost { IsErrOf result CarryFault.RegistryLost → (w : World)
            → IsCarried w (inner_of self.old.bus) self.old.posts.items → HasRegistryFirst w.ends
            → IsLostBy (does w (unjoins conn)) self.new.posts.items self.old.trace.items self.new.trace.items }
        ensures spent { IsErrOf result CarryFault.Spent → (w : World)
            → IsCarried w (inner_of self.old.bus) self.old.posts.items
            → IsSpentBy w (does w (unjoins conn)) self.new.posts.items self.old.trace.items self.new.trace.items }
    {
        self.leave(conn);
        self.bus.part_with(conn)?;
        self.tell_bus()?;
        Ok(())
    }
}
