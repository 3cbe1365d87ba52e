//! The beginning of a world, and the starts of ends.

ghost use Rattle.std.specs.Prelude.{◌≡◌, ◌<◌, ◌≤◌, ℕ, [], length, All, IfOk, IsErrOf, OnOk};
ghost use Rattle.atspi_tree_model.specs.Row.{IsName};
ghost use Rattle.atspi_script_lines.specs.declared.limits.TheConstants.{APP_COUNT, QUOTA_LEAST, QUOTA_MOST};
ghost use Rattle.atspi_protocol.specs.registering.RegistryState.{begins};
ghost use Rattle.atspi_match.specs.routing.Queues.{empty_bus};
ghost use Rattle.atspi_bus_steps.specs.InnerBus.{inner_of, state_of};
ghost use Rattle.atspi_bus_steps.specs.Sound.{IsSound};
ghost use Rattle.atspi_trace.specs.play.Playing.{first_playing, Playing};
ghost use Rattle.atspi_trace.specs.play.Plays.{plays};
ghost use Rattle.atspi_trace.specs.Ends.{app_count, reader_count};
ghost use Rattle.atspi_trace.specs.Causes.{renews, starts_app, starts_reader};
ghost use Rattle.atspi_trace.specs.Work.{spare_count};
ghost use Rattle.atspi_world_moves.specs.inner.Beginning.{IsHeard};
ghost use Rattle.atspi_world.specs.inner.Hearing.{HearsAll};
ghost use Rattle.atspi_world.specs.Stage.{IsStage, trace_of};
ghost use Rattle.atspi_world.specs.Worlds.{staged, Happens, IsBegun, IsPlaying, with_kit};

use crate::stage::Stage;
use atspi_base::Text;
use atspi_registry::Registry;
use atspi_script_lines::{Party, QUOTA_MOST};
use atspi_world_ends::{Application, Follower};
use atspi_world_moves::{Carrier, CarryFault};
use atspi_world_parties::{
    Cast, hear_at, start_app_at, start_reader_at, tell_app_at, tell_first, tell_reader_at,
    tell_start,
};
use std::alloc::Global;

/// How many messages the registry takes at its start at most.
const START_TURNS: u32 = 64;

/// The registry takes all that waits for it: what the bus returns to the calls of its start. Those are fewer than 64
/// messages.
fn hear_all(carrier: &mut Carrier, registry: &mut Registry, conn: u32) -> Result<(), CarryFault>
    requires sound { IsSound (state_of carrier.old.bus) }
    ensures sound { IsSound (state_of carrier.new.bus) }
    ensures posts { carrier.new.posts ≡ carrier.old.posts }
    ensures trace { carrier.new.trace ≡ carrier.old.trace }
    ensures heard { OnOk result (IsHeard (inner_of carrier.old.bus) (inner_of carrier.new.bus) conn) }
    ensures hears { OnOk result
        (HearsAll (inner_of carrier.old.bus) (inner_of carrier.new.bus) carrier.old.posts.items carrier.old.at_end.items
        carrier.new.at_end.items conn registry.old registry.new) }
{
    for _message in 0..START_TURNS {
        if carrier.bus.waiting(conn) == 0 {
            return Ok(());
        }
        carrier.fill(conn, usize::MAX)?;
        hear_at(registry, &mut carrier.at_end, conn)?;
    }
    Err(CarryFault::Unsendable)
}

impl<A: Application, R: Follower> Stage<A, R> {
    /// A world over these kits and spare faces, the last of which come first. Its bus and its registry are started, and
    /// nothing of that is told. Its one refusal is want of memory.
    pub fn new(
        alloc: Global,
        kits: Vec<A::Kit>,
        spares: Vec<A::Spare>,
    ) -> Result<Stage<A, R>, CarryFault>
        requires kits { All A.is_kit kits.items }
        requires spares { All A.is_spare spares.items }
        ensures stage { IfOk result (λ stage. IsStage A.is_app R.is_follower A.is_kit A.is_spare stage) }
        ensures begins { IfOk result (λ stage. length kits.items ≡ APP_COUNT → length spares.items ≡ spare_count
            → IsPlaying (first_playing QUOTA_MOST) (staged A.exporter R.follower stage)) }
        ensures silent { IfOk result (λ stage. trace_of stage ≡ []) }
        ensures calm { (IsErrOf result CarryFault.Spent → ⊥) × (IsErrOf result CarryFault.RegistryLost → ⊥) }
    {
        let cast = Cast::new(alloc)?;
        let mut stage = Stage {
            carrier: Carrier::new(alloc, QUOTA_MOST),
            cast,
            kits,
            spares,
        };
        stage.begin()?;
        Ok(stage)
    }

    /// The registry joins the bus and starts, and nothing of that is told. Unsendable for any other fault than want of
    /// memory: over a quota of 1,024 bytes or more neither does the bus drop the registry at its start, nor does one of
    /// them spend its serials, though no clause says so.
    fn begin(&mut self) -> Result<(), CarryFault>
        requires stage { IsStage A.is_app R.is_follower A.is_kit A.is_spare self.old }
        ensures stage { OnOk result (IsStage A.is_app R.is_follower A.is_kit A.is_spare self.new) }
        ensures ends { (self.new.cast.apps ≡ self.old.cast.apps) × (self.new.cast.readers ≡ self.old.cast.readers) }
        ensures left { (self.new.kits ≡ self.old.kits) × (self.new.spares ≡ self.old.spares) }
        ensures calm { (IsErrOf result CarryFault.Spent → ⊥) × (IsErrOf result CarryFault.RegistryLost → ⊥) }
        ensures begins { OnOk result
            ((quota : ℕ) → QUOTA_LEAST ≤ quota → quota ≤ QUOTA_MOST → inner_of self.old.carrier.bus ≡ empty_bus quota
            → self.old.carrier.posts.items ≡ [] → self.old.carrier.at_end.items ≡ []
            → self.old.cast.registry ≡ record { state = begins; out = [] }
            → IsBegun quota (inner_of self.new.carrier.bus) self.new.carrier.posts.items self.new.carrier.at_end.items
            self.new.cast.registry self.old.carrier.trace.items self.new.carrier.trace.items) }
    {
        match self.join_registry() {
            Ok(()) => Ok(()),
            Err(CarryFault::NoMemory) => Err(CarryFault::NoMemory),
            Err(_) => Err(CarryFault::Unsendable),
        }
    }

    /// The same, with what the registry's calls and the bus come to.
    fn join_registry(&mut self) -> Result<(), CarryFault>
        requires stage { IsStage A.is_app R.is_follower A.is_kit A.is_spare self.old }
        ensures stage { OnOk result (IsStage A.is_app R.is_follower A.is_kit A.is_spare self.new) }
        ensures ends { (self.new.cast.apps ≡ self.old.cast.apps) × (self.new.cast.readers ≡ self.old.cast.readers) }
        ensures left { (self.new.kits ≡ self.old.kits) × (self.new.spares ≡ self.old.spares) }
        ensures begins { OnOk result
            ((quota : ℕ) → QUOTA_LEAST ≤ quota → quota ≤ QUOTA_MOST → inner_of self.old.carrier.bus ≡ empty_bus quota
            → self.old.carrier.posts.items ≡ [] → self.old.carrier.at_end.items ≡ []
            → self.old.cast.registry ≡ record { state = begins; out = [] }
            → IsBegun quota (inner_of self.new.carrier.bus) self.new.carrier.posts.items self.new.carrier.at_end.items
            self.new.cast.registry self.old.carrier.trace.items self.new.carrier.trace.items) }
    {
        let told = self.carrier.trace.len();
        let conn = self.carrier.join(Party::Registry)?;
        self.cast.registry.start()?;
        tell_first(
            &mut self.cast.registry,
            &mut self.carrier.posts,
            &mut self.carrier.trace,
        )?;
        self.carrier.greet(conn)?;
        hear_all(&mut self.carrier, &mut self.cast.registry, conn)?;
        self.carrier.trace.truncate(told);
        Ok(())
    }

    /// The bus and the registry are made anew with this quota.
    pub(crate) fn renew(&mut self, quota: u32) -> Result<(), CarryFault>
        requires stage { IsStage A.is_app R.is_follower A.is_kit A.is_spare self.old }
        ensures stage { OnOk result (IsStage A.is_app R.is_follower A.is_kit A.is_spare self.new) }
        ensures does { OnOk result
            ((p : Playing) → QUOTA_LEAST ≤ quota → quota ≤ QUOTA_MOST
            → IsPlaying p (staged A.exporter R.follower self.old) → length p.world.ends ≤ 1
            → Happens (plays p (renews quota)) (staged A.exporter R.follower self.old)
            (staged A.exporter R.follower self.new)) }
        ensures calm { (IsErrOf result CarryFault.Spent → ⊥) × (IsErrOf result CarryFault.RegistryLost → ⊥) }
    {
        self.carrier.renew(quota);
        self.cast.registry = Registry::new(self.carrier.alloc)?;
        self.begin()
    }

    /// An application starts, with the name of its root, where a kit is left.
    pub(crate) fn start_app(&mut self, name: &Text) -> Result<(), CarryFault>
        requires name { IsName name.now }
        requires stage { IsStage A.is_app R.is_follower A.is_kit A.is_spare self.old }
        ensures stage { OnOk result (IsStage A.is_app R.is_follower A.is_kit A.is_spare self.new) }
        ensures does { OnOk result
            ((p : Playing) → IsPlaying p (staged A.exporter R.follower self.old) → app_count p.world.ends < 16
            → Happens (plays p (starts_app name.now)) (staged A.exporter R.follower self.old)
            (staged A.exporter R.follower self.new)) }
        ensures calm { (IsErrOf result CarryFault.Spent → ⊥) × (IsErrOf result CarryFault.RegistryLost → ⊥) }
    {
        match self.kits.pop() {
            Some(kit) => self.add_app(name, kit),
            None => Ok(()),
        }
    }

    /// An application starts over a kit.
    fn add_app(&mut self, name: &Text, kit: A::Kit) -> Result<(), CarryFault>
        requires stage { IsStage A.is_app R.is_follower A.is_kit A.is_spare self.old }
        requires name { IsName name.now }
        requires kit { A.is_kit kit }
        ensures stage { OnOk result (IsStage A.is_app R.is_follower A.is_kit A.is_spare self.new) }
        ensures does { OnOk result ((p : Playing) → IsPlaying p (with_kit (staged A.exporter R.follower self.old))
            → Happens (plays p (starts_app name.now)) (staged A.exporter R.follower self.old)
            (staged A.exporter R.follower self.new)) }
        ensures calm { (IsErrOf result CarryFault.Spent → ⊥) × (IsErrOf result CarryFault.RegistryLost → ⊥) }
    {
        let alloc = self.carrier.alloc;
        let Ok(number) = u32::try_from(self.cast.apps.len()) else {
            return Err(CarryFault::Unsendable);
        };
        let who = Party::App(number);
        tell_start(alloc, &mut self.carrier.trace, who, Some(name))?;
        start_app_at(alloc, &mut self.cast.apps, name, kit)?;
        let conn = self.carrier.join(who)?;
        tell_app_at(
            &mut self.cast.apps,
            number,
            &mut self.carrier.posts,
            conn,
            &mut self.carrier.trace,
        )?;
        Ok(())
    }

    /// A reader starts.
    pub(crate) fn start_reader(&mut self) -> Result<(), CarryFault>
        requires stage { IsStage A.is_app R.is_follower A.is_kit A.is_spare self.old }
        ensures stage { OnOk result (IsStage A.is_app R.is_follower A.is_kit A.is_spare self.new) }
        ensures does { OnOk result
            ((p : Playing) → IsPlaying p (staged A.exporter R.follower self.old) → reader_count p.world.ends < 4
            → Happens (plays p starts_reader) (staged A.exporter R.follower self.old)
            (staged A.exporter R.follower self.new)) }
        ensures calm { (IsErrOf result CarryFault.Spent → ⊥) × (IsErrOf result CarryFault.RegistryLost → ⊥) }
    {
        let alloc = self.carrier.alloc;
        let Ok(number) = u32::try_from(self.cast.readers.len()) else {
            return Err(CarryFault::Unsendable);
        };
        let who = Party::Reader(number);
        tell_start(alloc, &mut self.carrier.trace, who, None)?;
        start_reader_at(alloc, &mut self.cast.readers)?;
        let conn = self.carrier.join(who)?;
        tell_reader_at(
            &mut self.cast.readers,
            number,
            &mut self.carrier.posts,
            conn,
            &mut self.carrier.trace,
        )?;
        Ok(())
    }
}
