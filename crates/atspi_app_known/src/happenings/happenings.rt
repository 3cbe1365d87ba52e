//! What happens by one cause, before its messages have numbers.

ghost use Rattle.std.specs.Prelude.{◌≡◌, [], ◌∷◌, ◌++◌, OnOk, OnErr};
ghost use Rattle.atspi_message.specs.Envelope.{envelope_of};
ghost use Rattle.atspi_protocol.specs.exporting.Exporter.{steps, sends, hears, deaf};
ghost use Rattle.atspi_app_known.specs.happenings.View.{happened};

use crate::happenings::event::AppEvent;
use atspi_base::valid_names::BusName;
use atspi_base::{NoMemory, Text};
use atspi_message::Message;
use atspi_tree_model::Step;
use std::alloc::Global;
use std::collections::VecDeque;

/// What happens at an application by one cause, in order. Its messages get their numbers when they are queued.
#[derive(Drop)]
pub struct Happenings {
    pub(crate) events: VecDeque<AppEvent>,
}

impl Happenings {
    /// Nothing.
    pub fn new(alloc: Global) -> Happenings
        ensures { happened result ≡ [] }
    {
        Happenings {
            events: VecDeque::new(alloc),
        }
    }

    /// Behind the others comes a step. After want of memory all is as before.
    pub fn push_step(&mut self, step: Step) -> Result<(), NoMemory>
        ensures ok { OnOk result (happened self.new ≡ happened self.old ++ steps step ∷ []) }
        ensures err { OnErr result (happened self.new ≡ happened self.old) }
    {
        self.events.push_back(AppEvent::Step(step))?;
        Ok(())
    }

    /// Behind the others a message is sent. After want of memory all is as before.
    pub fn push_message(&mut self, message: Message) -> Result<(), NoMemory>
        ensures ok { OnOk result (happened self.new ≡ happened self.old ++ sends (envelope_of message) ∷ []) }
        ensures err { OnErr result (happened self.new ≡ happened self.old) }
    {
        self.events.push_back(AppEvent::Send(message))?;
        Ok(())
    }

    /// Behind the others a pattern counts from then on. After want of memory all is as before.
    pub fn push_hears(&mut self, name: BusName, pattern: Text) -> Result<(), NoMemory>
        ensures ok { OnOk result (happened self.new ≡ happened self.old ++ hears name pattern ∷ []) }
        ensures err { OnErr result (happened self.new ≡ happened self.old) }
    {
        self.events.push_back(AppEvent::Hears(name, pattern))?;
        Ok(())
    }

    /// Behind the others a pattern no longer counts. After want of memory all is as before.
    pub fn push_deaf(&mut self, name: BusName, pattern: Text) -> Result<(), NoMemory>
        ensures ok { OnOk result (happened self.new ≡ happened self.old ++ deaf name pattern ∷ []) }
        ensures err { OnErr result (happened self.new ≡ happened self.old) }
    {
        self.events.push_back(AppEvent::Deaf(name, pattern))?;
        Ok(())
    }
}
