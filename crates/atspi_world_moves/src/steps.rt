//! What is carried in steps that note several events: each is told whole, or the carrier is given up.

ghost use Rattle.std.specs.Prelude.{◌≡◌, ◌∷◌, List, OnOk, IsErrOf};
ghost use Rattle.atspi_bus_steps.specs.InnerBus.{inner_of, state_of};
ghost use Rattle.atspi_bus_steps.specs.Sound.{IsSound};
ghost use Rattle.atspi_trace.specs.World.{here, stopped, End, Said, World};
ghost use Rattle.atspi_trace.specs.Ends.{end_at};
ghost use Rattle.atspi_trace.specs.Causes.{does, routes, unjoins};
ghost use Rattle.atspi_trace.specs.Work.{moving_up};
ghost use Rattle.atspi_world_moves.specs.Beginning.{with_one_taken, IsGreeted, IsGreeting};
ghost use Rattle.atspi_world_moves.specs.Carried.{IsCarried, IsDone};
ghost use Rattle.atspi_world_moves.specs.GivenUp.{gives_up, IsGivenUp, OnGivingUp};
ghost use Rattle.atspi_world_moves.specs.inner.GivenUp.{IsRejoined, UnlessGivenUp};
ghost use Rattle.atspi_world_moves.specs.Halted.{HasRegistryFirst, IsLostBy, IsLostOn, IsSpentBy, IsSpentOn};
ghost use Rattle.atspi_world_moves.specs.Linked.{IsLinked};
ghost use Rattle.atspi_world_moves.specs.Moving.{MovesAll, MovesAt};

use crate::carrier::Carrier;
use crate::fault::CarryFault;
use atspi_trace_events::Event;
use atspi_world_links::{apart, put_behind};

impl Carrier {
    /// The carrier is given up: its bus has quota 0 and nobody has joined it, nothing lies at an end, and what was told
    /// stays.
    fn give_up(&mut self)
        ensures { IsGivenUp (inner_of self.new.bus) self.new.posts.items self.new.at_end.items self.old.trace.items
            self.new.trace.items }
    {
        self.renew(0);
    }

    /// What a step told apart is put behind what was told before. Where the step failed for want of memory or for what
    /// no script comes to, and where memory is wanting here, the carrier is given up, and of the step nothing is told.
    fn rejoin(&mut self, before: Vec<Event>, done: Result<(), CarryFault>) -> Result<(), CarryFault>
        ensures told { UnlessGivenUp gives_up result
            ((result ≡ done)
            × IsRejoined self.old.bus self.new.bus self.old.posts.items self.new.posts.items self.old.at_end.items
            self.new.at_end.items
            before.items self.old.trace.items self.new.trace.items) }
        ensures err { OnGivingUp gives_up result
            (IsGivenUp (inner_of self.new.bus) self.new.posts.items self.new.at_end.items before.items
            self.new.trace.items) }
    {
        match done {
            Err(CarryFault::NoMemory) => {
                self.trace = before;
                self.give_up();
                Err(CarryFault::NoMemory)
            }
            Err(CarryFault::Unsendable) => {
                self.trace = before;
                self.give_up();
                Err(CarryFault::Unsendable)
            }
            _ => match put_behind(&mut self.trace, before) {
                Ok(()) => done,
                Err(_) => {
                    self.give_up();
                    Err(CarryFault::NoMemory)
                }
            },
        }
    }

    /// The bus takes the first message of a connection's up link, if there is one. RegistryLost where that drops the
    /// registry, and then all is told that it writes; Spent where the bus's own messages would pass serial
    /// 4,294,967,295. After any other fault the carrier is given up: its bus has quota 0 and nobody has joined it, and
    /// what was told is as before.
    pub fn route(&mut self, conn: u32) -> Result<(), CarryFault>
        requires sound { IsSound (state_of self.old.bus) }
        ensures sound { OnOk result (IsSound (state_of self.new.bus)) }
        ensures does { OnOk result
            ((w : World) (e : End) (said : Said) (rest : List Said)
            → IsCarried w (inner_of self.old.bus) self.old.posts.items
            → end_at w.ends conn ≡ Some e → e.up ≡ said ∷ rest
            → IsDone (does w (routes conn)) (inner_of self.new.bus) self.new.posts.items self.old.trace.items
            self.new.trace.items) }
        ensures linked { OnOk result
            ((w : World) (e : End) (said : Said) (rest : List Said)
            → IsCarried w (inner_of self.old.bus) self.old.posts.items
            → IsLinked w self.old.at_end.items → end_at w.ends conn ≡ Some e → e.standing ≡ here → e.up ≡ said ∷ rest
            → IsLinked (does w (routes conn)).world self.new.at_end.items) }
        ensures lost { IsErrOf result CarryFault.RegistryLost → (w : World) (e : End) (said : Said) (rest : List Said)
            → IsCarried w (inner_of self.old.bus) self.old.posts.items
            → HasRegistryFirst w.ends → end_at w.ends conn ≡ Some e → e.up ≡ said ∷ rest
            → IsLostBy (does w (routes conn)) self.new.posts.items self.old.trace.items self.new.trace.items }
        ensures spent { IsErrOf result CarryFault.Spent → (w : World) (e : End) (said : Said) (rest : List Said)
            → IsCarried w (inner_of self.old.bus) self.old.posts.items
            → end_at w.ends conn ≡ Some e → e.up ≡ said ∷ rest
            → IsSpentBy w (does w (routes conn)) self.new.posts.items self.old.trace.items self.new.trace.items }
        ensures err { OnGivingUp gives_up result
            (IsGivenUp (inner_of self.new.bus) self.new.posts.items self.new.at_end.items self.old.trace.items
            self.new.trace.items) }
    {
        let before = apart(self.alloc, &mut self.trace);
        let done = self.route_apart(conn);
        self.rejoin(before, done)
    }

    /// The bus takes the end of a connection. RegistryLost where that drops the registry, and then all is told that it
    /// writes; Spent where the bus's own messages would pass serial 4,294,967,295. After any other fault the carrier is
    /// given up, as by `route`.
    pub fn part(&mut self, conn: u32) -> Result<(), CarryFault>
        requires sound { IsSound (state_of self.old.bus) }
        ensures sound { OnOk result (IsSound (state_of self.new.bus)) }
        ensures does { OnOk result ((w : World) → IsCarried w (inner_of self.old.bus) self.old.posts.items
            → IsDone (does w (unjoins conn)) (inner_of self.new.bus) self.new.posts.items self.old.trace.items
            self.new.trace.items) }
        ensures linked { OnOk result
            ((w : World) (e : End) → IsCarried w (inner_of self.old.bus) self.old.posts.items
            → IsLinked w self.old.at_end.items
            → end_at w.ends conn ≡ Some e → e.standing ≡ stopped
            → IsLinked (does w (unjoins conn)).world self.new.at_end.items) }
        ensures lost { IsErrOf result CarryFault.RegistryLost → (w : World)
            → IsCarried w (inner_of self.old.bus) self.old.posts.items → HasRegistryFirst w.ends
            → IsLostBy (does w (unjoins conn)) self.new.posts.items self.old.trace.items self.new.trace.items }
        ensures spent { IsErrOf result CarryFault.Spent → (w : World)
            → IsCarried w (inner_of self.old.bus) self.old.posts.items
            → IsSpentBy w (does w (unjoins conn)) self.new.posts.items self.old.trace.items self.new.trace.items }
        ensures err { OnGivingUp gives_up result
            (IsGivenUp (inner_of self.new.bus) self.new.posts.items self.new.at_end.items self.old.trace.items
            self.new.trace.items) }
    {
        let before = apart(self.alloc, &mut self.trace);
        let done = self.part_apart(conn);
        self.rejoin(before, done)
    }

    /// The bus takes three messages of a connection: the calls of the registry's start. After any fault but
    /// RegistryLost and Spent the carrier is given up, as by `route`.
    pub fn greet(&mut self, conn: u32) -> Result<(), CarryFault>
        requires sound { IsSound (state_of self.old.bus) }
        ensures sound { OnOk result (IsSound (state_of self.new.bus)) }
        ensures greets { OnOk result
            ((w : World) → IsCarried w (inner_of self.old.bus) self.old.posts.items → IsGreeting w conn
            → IsGreeted w conn (inner_of self.new.bus) self.new.posts.items self.old.trace.items self.new.trace.items) }
        ensures linked { OnOk result
            ((w : World) → IsCarried w (inner_of self.old.bus) self.old.posts.items → IsLinked w self.old.at_end.items
            → IsGreeting w conn
            → IsLinked (with_one_taken (with_one_taken (with_one_taken w conn) conn) conn) self.new.at_end.items) }
        ensures err { OnGivingUp gives_up result
            (IsGivenUp (inner_of self.new.bus) self.new.posts.items self.new.at_end.items self.old.trace.items
            self.new.trace.items) }
    {
        let before = apart(self.alloc, &mut self.trace);
        let done = self.greet_apart(conn);
        self.rejoin(before, done)
    }

    /// Moves at most so many bytes of an up link; the bus takes what they complete. Where that closes the connection,
    /// nothing more is there to move. RegistryLost and Spent as `route`; after any other fault the carrier is given up,
    /// as by `route`.
    pub fn move_up(&mut self, conn: u32, most: u32) -> Result<(), CarryFault>
        requires sound { IsSound (state_of self.old.bus) }
        ensures sound { OnOk result (IsSound (state_of self.new.bus)) }
        ensures moves { OnOk result
            (MovesAll (inner_of self.old.bus) (inner_of self.new.bus) self.old.posts.items self.new.posts.items
            self.old.at_end.items self.new.at_end.items conn most self.old.trace.items self.new.trace.items) }
        ensures lost { IsErrOf result CarryFault.RegistryLost → (w : World)
            → IsCarried w (inner_of self.old.bus) self.old.posts.items → IsLinked w self.old.at_end.items
            → HasRegistryFirst w.ends → MovesAt self.old.posts.items conn
            → IsLostOn w (moving_up conn most) self.new.posts.items self.old.trace.items self.new.trace.items }
        ensures spent { IsErrOf result CarryFault.Spent → (w : World)
            → IsCarried w (inner_of self.old.bus) self.old.posts.items → IsLinked w self.old.at_end.items
            → MovesAt self.old.posts.items conn
            → IsSpentOn w (moving_up conn most) self.new.posts.items self.old.trace.items self.new.trace.items }
        ensures err { OnGivingUp gives_up result
            (IsGivenUp (inner_of self.new.bus) self.new.posts.items self.new.at_end.items self.old.trace.items
            self.new.trace.items) }
    {
        let before = apart(self.alloc, &mut self.trace);
        let done = self.move_up_apart(conn, most);
        self.rejoin(before, done)
    }
}
