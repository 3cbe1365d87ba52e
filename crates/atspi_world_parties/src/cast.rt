//! The ends of a world.

ghost use Rattle.std.specs.Prelude.{◌≡◌, [], map, slice_get, Some, All, IfOk, IsErrOf, OnOk};
ghost use Rattle.atspi_message_in_place.specs.View.{envelope_at};
ghost use Rattle.atspi_protocol.specs.exporting.Exporter.{Exporter};
ghost use Rattle.atspi_protocol.specs.exporting.Taking.{app_takes};
ghost use Rattle.atspi_protocol.specs.following.ReaderState.{ReaderState};
ghost use Rattle.atspi_protocol.specs.registering.RegistryState.{begins};
ghost use Rattle.atspi_protocol.specs.following.Takes.{reader_takes};
ghost use Rattle.atspi_world_links.specs.Changes.{changed_at};
ghost use Rattle.atspi_trace.specs.play.Breaking.{IsPast};
ghost use Rattle.atspi_world_parties.specs.Spending.{HasSpentAll};
ghost use Rattle.atspi_world_parties.specs.Taken.{ends_after, ends_of};

use atspi_base::NoMemory;
use atspi_message_in_place::MessageRef;
use atspi_protocol::ends::EndFault;
use atspi_registry::Registry;
use atspi_script_lines::Party;
use atspi_world_ends::{Application, Follower};
use std::alloc::Global;

/// The ends of a world: the registry, and the applications and readers in order of starting.
#[derive(Drop)]
pub struct Cast<A: Application, R: Follower> {
    pub registry: Registry,
    pub apps: Vec<A>,
    pub readers: Vec<R>,
}

impl<A: Application, R: Follower> Cast<A, R> {
    /// A registry that knows nobody and has not started, and no other end.
    pub fn new(alloc: Global) -> Result<Cast<A, R>, NoMemory>
        ensures registry { IfOk result (λ cast. cast.registry ≡ record { state = begins; out = [] }) }
        ensures apps { IfOk result (λ cast. cast.apps.items ≡ []) }
        ensures readers { IfOk result (λ cast. cast.readers.items ≡ []) }
    {
        let registry = Registry::new(alloc)?;
        Ok(Cast {
            registry,
            apps: Vec::new(alloc),
            readers: Vec::new(alloc),
        })
    }
}

/// An application takes a message.
fn take_app<A: Application>(
    alloc: Global,
    apps: &mut [A],
    number: u32,
    message: &MessageRef<'_>,
) -> Result<(), EndFault>
    requires apps { All A.is_app apps.old }
    ensures apps { All A.is_app apps.new }
    ensures took { OnOk result
        (map A.exporter apps.new
        ≡ changed_at number (λ (s : Exporter). app_takes s (envelope_at message.now)) (map A.exporter apps.old)) }
    ensures spent { IsErrOf result EndFault.Spent
        → (s : Exporter)
        × (slice_get
        (changed_at number (λ (x : Exporter). app_takes x (envelope_at message.now))
        (map A.exporter apps.old)) number ≡ Some s) × IsPast s.next }
{
    let place = number as usize;
    if place >= apps.len() {
        return Ok(());
    }
    let app = &mut apps[place];
    app.take(alloc, message)
}

/// A reader takes a message.
fn take_reader<R: Follower>(
    readers: &mut [R],
    number: u32,
    message: &MessageRef<'_>,
) -> Result<(), EndFault>
    requires readers { All R.is_follower readers.old }
    ensures readers { All R.is_follower readers.new }
    ensures took { OnOk result
        (map R.follower readers.new
        ≡ changed_at number (λ (s : ReaderState). reader_takes s (envelope_at message.now))
        (map R.follower readers.old)) }
    ensures spent { IsErrOf result EndFault.Spent
        → (s : ReaderState)
        × (slice_get
        (changed_at number (λ (x : ReaderState). reader_takes x (envelope_at message.now))
        (map R.follower readers.old)) number ≡ Some s) × IsPast s.next }
{
    let place = number as usize;
    if place >= readers.len() {
        return Ok(());
    }
    let reader = &mut readers[place];
    reader.take(message)
}

impl<A: Application, R: Follower> Cast<A, R> {
    /// An end takes a message.
    pub(crate) fn take(
        &mut self,
        alloc: Global,
        who: Party,
        message: &MessageRef<'_>,
    ) -> Result<(), EndFault>
        requires apps { All A.is_app self.old.apps.items }
        requires readers { All R.is_follower self.old.readers.items }
        ensures apps { All A.is_app self.new.apps.items }
        ensures readers { All R.is_follower self.new.readers.items }
        ensures took { OnOk result
            (ends_of A.exporter R.follower self.new.registry self.new.apps.items self.new.readers.items
            ≡ ends_after who (envelope_at message.now)
            (ends_of A.exporter R.follower self.old.registry self.old.apps.items self.old.readers.items)) }
        ensures spent { IsErrOf result EndFault.Spent
            → HasSpentAll who
            (ends_after who (envelope_at message.now)
            (ends_of A.exporter R.follower self.old.registry self.old.apps.items self.old.readers.items)) }
    {
        match who {
            Party::Bus => Ok(()),
            Party::Registry => self.registry.take(message),
            Party::App(number) => take_app(alloc, &mut self.apps, number, message),
            Party::Reader(number) => take_reader(&mut self.readers, number, message),
        }
    }
}
