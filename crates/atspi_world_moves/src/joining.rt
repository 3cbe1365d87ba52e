//! The beginning, and joining.

ghost use Rattle.std.specs.Prelude.{◌≡◌, min, [], length, OnOk, OnErr, IfOk, IsErrOf};
ghost use Rattle.atspi_script_lines.specs.declared.line.Party.TheVariants as parties;
ghost use Rattle.atspi_bus_steps.specs.InnerBus.{inner_of, state_of};
ghost use Rattle.atspi_bus_steps.specs.Sound.{IsSound};
ghost use Rattle.atspi_match.specs.routing.Queues.{empty_bus};
ghost use Rattle.atspi_trace.specs.World.{Role, World};
ghost use Rattle.atspi_trace.specs.Causes.{joins};
ghost use Rattle.atspi_world_moves.specs.Beginning.{with_one_taken, IsGreeted, IsGreeting};
ghost use Rattle.atspi_world_moves.specs.Carried.{IsCarried};
ghost use Rattle.atspi_world_moves.specs.Linked.{IsLinked};

use crate::carrier::Carrier;
use crate::fault::CarryFault;
use atspi_bus_steps::{Inner, JoinFault};
use atspi_script_lines::Party;
use atspi_world_links::{Link, Post};
use std::alloc::Global;

impl Carrier {
    /// A bus with this quota, at most 67,108,864, to which nobody has joined; nothing was told.
    pub fn new(alloc: Global, quota: u32) -> Carrier
        ensures sound { IsSound (state_of result.bus) }
        ensures bus { inner_of result.bus ≡ empty_bus (min quota 67108864) }
        ensures posts { result.posts.items ≡ [] }
        ensures given { result.at_end.items ≡ [] }
        ensures trace { result.trace.items ≡ [] }
    {
        Carrier {
            alloc,
            bus: Inner::new(alloc, quota),
            posts: Vec::new(alloc),
            at_end: Vec::new(alloc),
            trace: Vec::new(alloc),
        }
    }

    /// The bus is made anew with this quota, at most 67,108,864, and nobody has joined; what was told stays.
    pub fn renew(&mut self, quota: u32)
        ensures sound { IsSound (state_of self.new.bus) }
        ensures bus { inner_of self.new.bus ≡ empty_bus (min quota 67108864) }
        ensures posts { self.new.posts.items ≡ [] }
        ensures given { self.new.at_end.items ≡ [] }
        ensures trace { self.new.trace ≡ self.old.trace }
    {
        self.bus = Inner::new(self.alloc, quota);
        self.posts.clear();
        self.at_end.clear();
    }

    /// A party joins the bus; its connection's number is its place. Unsendable where no number is left. After a fault
    /// all is as before.
    pub fn join(&mut self, who: Party) -> Result<u32, CarryFault>
        requires sound { IsSound (state_of self.old.bus) }
        ensures sound { OnOk result (IsSound (state_of self.new.bus)) }
        ensures trace { self.new.trace ≡ self.old.trace }
        ensures place { IfOk result (λ conn. conn ≡ length self.old.posts.items) }
        ensures joins { IfOk result
            (λ conn. (w : World) (role : Role) → IsCarried w (inner_of self.old.bus) self.old.posts.items
            → IsCarried (joins w who role []) (inner_of self.new.bus) self.new.posts.items) }
        ensures linked { IfOk result
            (λ conn. (w : World) (role : Role) → IsLinked w self.old.at_end.items
            → (w.ends ≡ [] → who ≡ parties.Registry)
            → IsLinked (joins w who role []) self.new.at_end.items) }
        ensures calm { (IsErrOf result CarryFault.Spent → ⊥) × (IsErrOf result CarryFault.RegistryLost → ⊥) }
        ensures err { OnErr result
            ((inner_of self.new.bus ≡ inner_of self.old.bus) × (self.new.posts.items ≡ self.old.posts.items)
            × (self.new.at_end.items ≡ self.old.at_end.items)) }
    {
        let Ok(conn) = u32::try_from(self.posts.len()) else {
            return Err(CarryFault::Unsendable);
        };
        // room in both lists first, so that they change last
        self.posts.reserve(1)?;
        self.at_end.reserve(1)?;
        match self.bus.join_behind(conn) {
            Ok(()) => {
                self.posts.push_reserved(Post::new(self.alloc, who));
                self.at_end.push_reserved(Link::new(self.alloc));
                Ok(conn)
            }
            Err(JoinFault::NoMemory) => Err(CarryFault::NoMemory),
            Err(JoinFault::Full) => Err(CarryFault::Unsendable),
        }
    }

    /// The bus takes three messages of a connection: the calls of the registry's start. After want of memory nothing is
    /// known of the carrier.
    pub(crate) fn greet_apart(&mut self, conn: u32) -> Result<(), CarryFault>
        requires sound { IsSound (state_of self.old.bus) }
        ensures sound { OnOk result (IsSound (state_of self.new.bus)) }
        ensures greets { OnOk result
            ((w : World) → IsCarried w (inner_of self.old.bus) self.old.posts.items → IsGreeting w conn
            → IsGreeted w conn (inner_of self.new.bus) self.new.posts.items self.old.trace.items self.new.trace.items) }
        ensures linked { OnOk result
            ((w : World) → IsCarried w (inner_of self.old.bus) self.old.posts.items → IsLinked w self.old.at_end.items
            → IsGreeting w conn
            → IsLinked (with_one_taken (with_one_taken (with_one_taken w conn) conn) conn) self.new.at_end.items) }
    {
        self.route_apart(conn)?;
        self.route_apart(conn)?;
        self.route_apart(conn)?;
        Ok(())
    }
}
