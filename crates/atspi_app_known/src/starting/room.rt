//! Room for what is to happen, which is made before it is done.

ghost use Rattle.std.specs.Prelude.{◌≡◌, false, true, IsErrOf, OnOk};
ghost use Rattle.atspi_protocol.specs.exporting.Exporter.{Exporter, queues};
ghost use Rattle.atspi_protocol.specs.exporting.Taking.{is_spent};
ghost use Rattle.atspi_app_known.specs.happenings.Room.{HasRoom};
ghost use Rattle.atspi_app_known.specs.happenings.View.{happened};
ghost use Rattle.atspi_app_known.specs.starting.KnownView.{known_in};

use crate::happenings::Happenings;
use crate::starting::known::Known;
use atspi_protocol::ends::EndFault;

impl Known {
    /// Makes room for what is to happen. Spent exactly where its messages would pass number 4,294,967,295. All stays as
    /// it is.
    pub fn reserve(&mut self, happenings: &Happenings) -> Result<(), EndFault>
        ensures room { OnOk result (HasRoom self.new.queue happenings.now) }
        ensures spent { IsErrOf result EndFault.Spent → (s : Exporter)
            → is_spent (queues (known_in self.old s) (happened happenings.now)) ≡ true }
        ensures same { (s : Exporter) → known_in self.new s ≡ known_in self.old s }
    {
        self.queue.reserve(happenings)
    }

    /// Queues what happened, for which room was made. Takes no memory.
    pub fn post_in_room(&mut self, happenings: &mut Happenings)
        requires { HasRoom self.old.queue happenings.old }
        ensures { (s : Exporter) → known_in self.new s ≡ queues (known_in self.old s) (happened happenings.old) }
    {
        self.queue.post_in_room(happenings);
    }

    /// There is a number for each message that is queued. A law: this does nothing.
    pub fn is_numbered(&self)
        ensures { (s : Exporter) → is_spent (known_in self.now s) ≡ false }
    {
        let _ = &self.queue;
    }
}
