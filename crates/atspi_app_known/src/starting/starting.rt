//! The start of an application, and the news of listeners.

ghost use Rattle.std.specs.Prelude.{◌≡◌, ◌+◌, ◌<◌, ◌∷◌, ◌++◌, [], true, Some, IfOk, IsErrOf, OnOk, OnErr};
ghost use Rattle.atspi_message.specs.Envelope.{envelope_of};
ghost use Rattle.atspi_marshal_in_place.specs.Items.{fields_data};
ghost use Rattle.atspi_message_in_place.specs.View.{envelope_at};
ghost use Rattle.atspi_protocol.specs.exporting.Exporter.{Exporter, awaits, queues, sends, sent_in, add_match};
ghost use Rattle.atspi_protocol.specs.exporting.Exporter.{get_registered_events, embed};
ghost use Rattle.atspi_protocol.specs.exporting.Starting as starting;
ghost use Rattle.atspi_protocol.specs.exporting.Starting.{asks, ends_start, goes_on, greeted, listened, name_or_empty};
ghost use Rattle.atspi_protocol.specs.exporting.Starting.{starts, unique_name_in};
ghost use Rattle.atspi_protocol.specs.exporting.Hearing.{pairs_in, one_more, one_less};
ghost use Rattle.atspi_protocol.specs.exporting.Taking.{is_spent, takes_signal};
ghost use Rattle.atspi_app_known.specs.happenings.View.{happened, next_of};
ghost use Rattle.atspi_app_known.specs.hearing.Lent.{lent_pair, lent_pairs};
ghost use Rattle.atspi_app_known.specs.starting.KnownView.{call_of, call_or_none, known_in};

use crate::happenings::Happenings;
use crate::heard::exchanged;
use crate::hearing::{News, PairRef, listed, news_in};
use crate::starting::calls::{embed_call, events_call, hello_call, match_call};
use crate::starting::known::Known;
use crate::starting::name::unique_name;
use crate::starting::waiting::{StartStep, Waiting};
use atspi_base::{NoMemory, Text};
use atspi_marshal_in_place::Fields;
use atspi_message::Message;
use atspi_message_in_place::MessageRef;
use atspi_protocol::ends::{EndFault, bus_name};
use std::alloc::Global;

impl Known {
    /// Queues what is told, and behind it a call, whose return is awaited from then on. After a fault all is as before.
    fn ask(&mut self, told: &mut Happenings, step: StartStep, call: Message) -> Result<(), EndFault>
        requires { sent_in (happened told.old) ≡ 0 }
        ensures ok { OnOk result
            ((s : Exporter)
            → known_in self.new s
            ≡ record (queues (known_in self.old s) (happened told.old ++ sends (envelope_of call) ∷ []))
            { phase = awaits (call_of step) (next_of self.old.queue) }) }
        ensures spent { IsErrOf result EndFault.Spent → 4294967296 < next_of self.old.queue + 1 }
        ensures err { OnErr result ((s : Exporter) → known_in self.new s ≡ known_in self.old s) }
    {
        let serial = self.queue.next_number();
        told.push_message(call)?;
        match self.queue.post(told) {
            Ok(()) => {
                self.waiting = Waiting::Awaits(step, serial as u32);
                Ok(())
            }
            Err(fault) => Err(fault),
        }
    }

    /// Queues a call, whose return is awaited from then on.
    fn ask_alone(&mut self, alloc: Global, step: StartStep, call: Message) -> Result<(), EndFault>
        ensures ok { OnOk result
            ((s : Exporter)
            → known_in self.new s
            ≡ record (queues (known_in self.old s) (sends (envelope_of call) ∷ []))
            { phase = awaits (call_of step) (next_of self.old.queue) }) }
        ensures spent { IsErrOf result EndFault.Spent → 4294967296 < next_of self.old.queue + 1 }
        ensures err { OnErr result ((s : Exporter) → known_in self.new s ≡ known_in self.old s) }
    {
        let mut told = Happenings::new(alloc);
        self.ask(&mut told, step, call)
    }

    /// Begins the start: Hello is queued. Spent exactly where no number is left for it; after a fault all is as before.
    pub fn start(&mut self, alloc: Global) -> Result<(), EndFault>
        ensures ok { OnOk result ((s : Exporter) → known_in self.new s ≡ starts (known_in self.old s)) }
        ensures spent { IsErrOf result EndFault.Spent → (s : Exporter)
            → is_spent (starts (known_in self.old s)) ≡ true }
        ensures err { OnErr result ((s : Exporter) → known_in self.new s ≡ known_in self.old s) }
    {
        let call = hello_call(alloc)?;
        self.ask_alone(alloc, StartStep::Hello, call)
    }

    /// Which call of its start a message answers, if one is awaited.
    pub fn awaited(&self, m: &MessageRef) -> Option<StartStep>
        ensures { (s : Exporter)
            → call_or_none result ≡ starting.awaited (known_in self.now s).phase (envelope_at m.now) }
    {
        match self.waiting {
            Waiting::Awaits(step, serial) => {
                if (m.kind == 2 || m.kind == 3) && m.reply == Some(serial) {
                    return Some(step);
                }
                None
            }
            Waiting::New => None,
            Waiting::Over => None,
        }
    }

    /// Nothing more of the start is to come.
    pub fn end_start(&mut self)
        ensures { (s : Exporter) → known_in self.new s ≡ ends_start (known_in self.old s) }
    {
        self.waiting = Waiting::Over;
    }

    /// Hello returned a name.
    fn take_name(&mut self, alloc: Global, values: Fields<'_>) -> Result<(), EndFault>
        ensures ok { OnOk result
            ((s : Exporter)
            → known_in self.new s ≡ greeted (known_in self.old s) (unique_name_in (fields_data values.entry))) }
        ensures spent { IsErrOf result EndFault.Spent → (s : Exporter)
            → is_spent (greeted (known_in self.old s) (unique_name_in (fields_data values.entry))) ≡ true }
        ensures err { OnErr result ((s : Exporter) → known_in self.new s ≡ known_in self.old s) }
    {
        match unique_name(values) {
            None => {
                self.end_start();
                Ok(())
            }
            Some(text) => {
                let name = Text::of(alloc, text)?;
                let call = match_call(alloc)?;
                self.ask_alone(alloc, StartStep::AddMatch, call)?;
                self.name = Some(name);
                Ok(())
            }
        }
    }

    /// AddMatch returned.
    fn ask_events(&mut self, alloc: Global) -> Result<(), EndFault>
        ensures ok { OnOk result
            ((s : Exporter) → known_in self.new s ≡ asks (known_in self.old s) get_registered_events) }
        ensures spent { IsErrOf result EndFault.Spent → (s : Exporter)
            → is_spent (asks (known_in self.old s) get_registered_events) ≡ true }
        ensures err { OnErr result ((s : Exporter) → known_in self.new s ≡ known_in self.old s) }
    {
        let call = events_call(alloc)?;
        self.ask_alone(alloc, StartStep::GetRegisteredEvents, call)
    }

    /// Its name, empty where it has none.
    fn own_name(&self, alloc: Global) -> Result<Text, NoMemory>
        ensures { IfOk result (λ name. name ≡ name_or_empty self.now.name) }
    {
        match &self.name {
            Some(name) => name.copy(alloc),
            None => Text::of(alloc, ""),
        }
    }

    /// GetRegisteredEvents returned a list of pairs.
    fn take_pairs(&mut self, alloc: Global, pairs: &[PairRef<'_>]) -> Result<(), EndFault>
        ensures ok { OnOk result
            ((s : Exporter) → known_in self.new s ≡ listened (known_in self.old s) (Some (lent_pairs pairs.now))) }
        ensures spent { IsErrOf result EndFault.Spent → (s : Exporter)
            → is_spent (listened (known_in self.old s) (Some (lent_pairs pairs.now))) ≡ true }
        ensures err { OnErr result ((s : Exporter) → known_in self.new s ≡ known_in self.old s) }
    {
        let name = self.own_name(alloc)?;
        let call = embed_call(alloc, &name)?;
        let mut exchange = exchanged(alloc, &self.heard, pairs)?;
        self.ask(&mut exchange.told, StartStep::Embed, call)?;
        self.heard = exchange.heard;
        Ok(())
    }

    /// GetRegisteredEvents returned.
    fn take_list(&mut self, alloc: Global, values: Fields<'_>) -> Result<(), EndFault>
        ensures ok { OnOk result
            ((s : Exporter)
            → known_in self.new s ≡ listened (known_in self.old s) (pairs_in (fields_data values.entry))) }
        ensures spent { IsErrOf result EndFault.Spent → (s : Exporter)
            → is_spent (listened (known_in self.old s) (pairs_in (fields_data values.entry))) ≡ true }
        ensures err { OnErr result ((s : Exporter) → known_in self.new s ≡ known_in self.old s) }
    {
        match listed(alloc, values)? {
            Some(pairs) => self.take_pairs(alloc, &pairs),
            None => {
                self.end_start();
                Ok(())
            }
        }
    }

    /// Goes on with the start behind the return to one of its calls (AT-SPI2's interface files Registry and Socket):
    /// the next call is queued, or the start ends. Spent exactly where no number is left for that; after a fault all is
    /// as before.
    pub fn take_return(
        &mut self,
        alloc: Global,
        step: StartStep,
        values: Fields<'_>,
    ) -> Result<(), EndFault>
        ensures ok { OnOk result
            ((s : Exporter)
            → known_in self.new s ≡ goes_on (known_in self.old s) (call_of step) (fields_data values.entry)) }
        ensures spent { IsErrOf result EndFault.Spent → (s : Exporter)
            → is_spent (goes_on (known_in self.old s) (call_of step) (fields_data values.entry)) ≡ true }
        ensures err { OnErr result ((s : Exporter) → known_in self.new s ≡ known_in self.old s) }
    {
        match step {
            StartStep::Hello => self.take_name(alloc, values),
            StartStep::AddMatch => self.ask_events(alloc),
            StartStep::GetRegisteredEvents => self.take_list(alloc, values),
            StartStep::Embed => {
                self.end_start();
                Ok(())
            }
        }
    }

    /// A pair counts from now on, unless it does already.
    fn register(&mut self, alloc: Global, pair: PairRef<'_>) -> Result<(), EndFault>
        ensures ok { OnOk result
            ((s : Exporter)
            → known_in self.new s
            ≡ queues
            (record (known_in self.old s)
            { heard = (one_more self.old.heard (lent_pair pair.entry)).heard })
            (one_more self.old.heard (lent_pair pair.entry)).told) }
        ensures spent { IsErrOf result EndFault.Spent → ⊥ }
        ensures err { OnErr result ((s : Exporter) → known_in self.new s ≡ known_in self.old s) }
    {
        if self.heard.has(pair.name, pair.pattern) {
            return Ok(());
        }
        let mut told = Happenings::new(alloc);
        told.push_hears(bus_name(alloc, pair.name)?, Text::of(alloc, pair.pattern)?)?;
        let count = self.heard.len();
        self.heard.push(bus_name(alloc, pair.name)?, Text::of(alloc, pair.pattern)?)?;
        match self.queue.post(&mut told) {
            Ok(()) => Ok(()),
            Err(fault) => {
                self.heard.truncate(count);
                Err(fault)
            }
        }
    }

    /// A pair no longer counts, if it did.
    fn deregister(&mut self, alloc: Global, pair: PairRef<'_>) -> Result<(), EndFault>
        ensures ok { OnOk result
            ((s : Exporter)
            → known_in self.new s
            ≡ queues
            (record (known_in self.old s)
            { heard = (one_less self.old.heard (lent_pair pair.entry)).heard })
            (one_less self.old.heard (lent_pair pair.entry)).told) }
        ensures spent { IsErrOf result EndFault.Spent → ⊥ }
        ensures err { OnErr result ((s : Exporter) → known_in self.new s ≡ known_in self.old s) }
    {
        if !self.heard.has(pair.name, pair.pattern) {
            return Ok(());
        }
        let mut told = Happenings::new(alloc);
        told.push_deaf(bus_name(alloc, pair.name)?, Text::of(alloc, pair.pattern)?)?;
        self.queue.post(&mut told)?;
        self.heard.remove(pair.name, pair.pattern);
        Ok(())
    }

    /// Takes a signal: those of the registry's interface change which patterns count, and what changes is queued. After
    /// a fault all is as before.
    pub fn take_signal(&mut self, alloc: Global, m: &MessageRef) -> Result<(), EndFault>
        ensures ok { OnOk result
            ((s : Exporter) → known_in self.new s ≡ takes_signal (known_in self.old s) (envelope_at m.now)) }
        ensures spent { IsErrOf result EndFault.Spent → ⊥ }
        ensures err { OnErr result ((s : Exporter) → known_in self.new s ≡ known_in self.old s) }
    {
        match news_in(m) {
            News::Registered(pair) => self.register(alloc, pair),
            News::Deregistered(pair) => self.deregister(alloc, pair),
            News::Nothing => Ok(()),
        }
    }
}
