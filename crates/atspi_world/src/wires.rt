//! The bytes of the messages that a trace tells.

ghost use Rattle.std.specs.Prelude.{◌≡◌, ◌++◌, slice_get, OnOk, OnErr};
ghost use Rattle.atspi_world_parties.specs.Wires.{wire_bytes};
ghost use Rattle.atspi_world.specs.Stage.{posts_of, trace_of};

use crate::stage::Stage;
use atspi_base::Bytes;
use atspi_world_ends::{Application, Follower};
use atspi_world_moves::CarryFault;
use atspi_world_parties::write_event;

impl<A: Application, R: Follower> Stage<A, R> {
    /// Appends the bytes of the message that an event tells: as it was sent, or as it was taken, that is, with the
    /// sender that the bus set where the taker is another end. A message that was taken is the last one that its sender
    /// sent with that serial before the event; it is looked for from the event back. Nothing for an event other than
    /// Sent and Got, and where there is no such event or message. After a fault nothing was appended:
    /// Unsendable where the message breaks a rule, or passes the limits of the wire with that sender.
    pub fn wire(&self, event: usize, out: &mut Bytes) -> Result<(), CarryFault>
        ensures ok { OnOk result
            (out.new
            ≡ out.old
            ++ wire_bytes (posts_of self.now) (trace_of self.now) event (slice_get (trace_of self.now) event)) }
        ensures err { OnErr result (out.new ≡ out.old) }
    {
        match write_event(
            self.carrier.alloc,
            &self.carrier.posts,
            &self.carrier.trace,
            event,
            out,
        ) {
            Ok(()) => Ok(()),
            Err(fault) => Err(CarryFault::from(fault)),
        }
    }
}
