//! The world: its ends, what lies between them, and what is left for further ends.

ghost use Rattle.std.specs.Prelude.{◌≡◌, slice_get};
ghost use Rattle.std.specs.Option.{option_copied};
ghost use Rattle.atspi_world.specs.Stage.{trace_of, apps_of, readers_of};

use atspi_trace_events::Event;
use atspi_world_ends::{Application, Follower};
use atspi_world_moves::Carrier;
use atspi_world_parties::Cast;

/// A world over applications and readers of these types.
#[derive(Drop)]
pub struct Stage<A: Application, R: Follower> {
    pub(crate) carrier: Carrier,
    pub(crate) cast: Cast<A, R>,
    /// The next is the last.
    pub(crate) kits: Vec<A::Kit>,
    /// The next is the last.
    pub(crate) spares: Vec<A::Spare>,
}

impl<A: Application, R: Follower> Stage<A, R> {
    /// All that happened, the oldest first.
    pub fn trace(&self) -> &[Event]
        ensures { result.now ≡ trace_of self.now }
    {
        &self.carrier.trace
    }

    /// The reader with this number, counted from 0 in order of starting, as it is, or as it was when it stopped. None
    /// exactly where none of that number was started. Takes no memory.
    pub fn reader(&self, reader: u32) -> Option<&R>
        ensures { option_copied result ≡ slice_get (readers_of self.now) reader }
    {
        self.cast.readers.get(reader as usize)
    }

    /// The application with this number, in the same way.
    pub fn app(&self, app: u32) -> Option<&A>
        ensures { option_copied result ≡ slice_get (apps_of self.now) app }
    {
        self.cast.apps.get(app as usize)
    }
}
