//! Room in the queue, which is made before what happens is done.

ghost use Rattle.std.specs.Prelude.{◌≡◌, ◌++◌, ◌+◌, ◌<◌, IsErrOf, OnOk};
ghost use Rattle.atspi_protocol.specs.exporting.Exporter.{numbered, sent_in};
ghost use Rattle.atspi_app_known.specs.happenings.Room.{HasRoom};
ghost use Rattle.atspi_app_known.specs.happenings.View.{happened, next_of, out_of};

use crate::happenings::happenings::Happenings;
use crate::happenings::kept::AppQueue;
use crate::happenings::queue::count_messages;
use atspi_protocol::ends::EndFault;

impl AppQueue {
    /// Makes room for what is to happen. Spent exactly where its messages would pass number 4,294,967,295. What is
    /// queued stays as it is.
    pub fn reserve(&mut self, happenings: &Happenings) -> Result<(), EndFault>
        ensures room { OnOk result (HasRoom self.new happenings.now) }
        ensures spent { IsErrOf result EndFault.Spent
            → 4294967296 < next_of self.old + sent_in (happened happenings.now) }
        ensures next { next_of self.new ≡ next_of self.old }
        ensures out { out_of self.new ≡ out_of self.old }
    {
        let more = count_messages(&happenings.events);
        if u64::from(u32::MAX) - self.taken < more {
            return Err(EndFault::Spent);
        }
        self.waiting.reserve(happenings.events.len())?;
        Ok(())
    }

    /// Queues what happened, for which room was made; its messages get the next numbers. Takes no memory.
    pub fn post_in_room(&mut self, happenings: &mut Happenings)
        requires { HasRoom self.old happenings.old }
        ensures next { next_of self.new ≡ next_of self.old + sent_in (happened happenings.old) }
        ensures out { out_of self.new ≡ out_of self.old ++ numbered (next_of self.old) (happened happenings.old) }
    {
        let more = count_messages(&happenings.events);
        match self.waiting.append(&mut happenings.events) {
            Ok(()) => {
                self.taken += more;
            }
            Err(_) => unreachable!(),
        }
    }
}
