//! What an application knows beside its tree.

ghost use Rattle.std.specs.Prelude.{◌≡◌, ◌∷◌, [], true, None, option_copied, IsErrOf, MatchOption, OnOk, OnErr};
ghost use Rattle.atspi_protocol.specs.exporting.Exporter as exporter;
ghost use Rattle.atspi_protocol.specs.exporting.Exporter.{Exporter, queues};
ghost use Rattle.atspi_protocol.specs.exporting.Taking.{is_spent};
ghost use Rattle.atspi_app_known.specs.happenings.Happened.{happening_of};
ghost use Rattle.atspi_app_known.specs.happenings.View.{happened, next_of, out_of};
ghost use Rattle.atspi_app_known.specs.starting.KnownView.{known_in, phase_of};

use crate::happenings::{AppEvent, AppQueue, Happenings};
use crate::heard::Heard;
use crate::starting::waiting::Waiting;
use atspi_base::Text;
use atspi_protocol::ends::EndFault;
use std::alloc::Global;

/// What an application knows beside its tree: its name, once Hello returned it; the patterns of listeners; how far its
/// start has come; and what it has queued.
#[derive(Drop)]
pub struct Known {
    pub(crate) name: Option<Text>,
    pub(crate) heard: Heard,
    pub(crate) waiting: Waiting,
    pub(crate) queue: AppQueue,
}

impl Known {
    /// Nothing is known, and nothing queued.
    pub fn new(alloc: Global) -> Known
        ensures name { result.name ≡ None }
        ensures heard { result.heard ≡ [] }
        ensures phase { phase_of result.waiting ≡ exporter.new }
        ensures next { next_of result.queue ≡ 1 }
        ensures out { out_of result.queue ≡ [] }
    {
        Known {
            name: None,
            heard: Heard::new(alloc),
            waiting: Waiting::New,
            queue: AppQueue::new(alloc),
        }
    }

    /// Its unique name.
    pub fn name(&self) -> Option<&Text>
        ensures { option_copied result ≡ self.now.name }
    {
        self.name.as_ref()
    }

    /// The patterns of listeners.
    pub fn heard(&self) -> &Heard
        ensures { result.now ≡ self.now.heard }
    {
        &self.heard
    }

    /// Queues what happens. Spent exactly where its messages would pass number 4,294,967,295; after a fault all is as
    /// before.
    pub fn post(&mut self, happenings: &mut Happenings) -> Result<(), EndFault>
        ensures ok { OnOk result
            ((s : Exporter) → known_in self.new s ≡ queues (known_in self.old s) (happened happenings.old)) }
        ensures spent { IsErrOf result EndFault.Spent → (s : Exporter)
            → is_spent (queues (known_in self.old s) (happened happenings.old)) ≡ true }
        ensures err { OnErr result ((s : Exporter) → known_in self.new s ≡ known_in self.old s) }
    {
        self.queue.post(happenings)
    }

    /// The oldest of what is queued, which is no longer queued.
    pub fn next(&mut self) -> Option<AppEvent>
        ensures front { MatchOption result (out_of self.old.queue ≡ [])
            (λ event. out_of self.old.queue ≡ happening_of event ∷ out_of self.new.queue) }
        ensures empty { MatchOption result (out_of self.new.queue ≡ out_of self.old.queue)
            (λ event. next_of self.new.queue ≡ next_of self.old.queue) }
        ensures rest { (s : Exporter)
            → known_in self.new s ≡ record (known_in self.old s) { out = out_of self.new.queue } }
    {
        self.queue.pop()
    }
}
