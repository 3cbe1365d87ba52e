//! The launcher as an end.

ghost use Rattle.std.specs.Prelude.{◌≡◌, ◌==◌, ◌<◌, ◌≤◌, false, true, [], ◌∷◌, ◌++◌, IfOk, IsErrOf, MatchOption};
ghost use Rattle.std.specs.Prelude.{OnOk, OnErr};
ghost use Rattle.atspi_base.specs.valid_names.Names.{is_bus_name};
ghost use Rattle.atspi_message.specs.Envelope.{envelope_of};
ghost use Rattle.atspi_message_in_place.specs.View.{envelope_at};
ghost use Rattle.atspi_types.specs.DataView.{all_data};
ghost use Rattle.std.specs.Prelude.{Ok, Err};
ghost use Rattle.atspi_launcher.specs.Launching as launching;
ghost use Rattle.atspi_launcher.specs.Launching.{answered, begins, launcher_starts, launcher_takes, starts, takes};
ghost use Rattle.atspi_launcher.specs.Launching.{told_of, value_of, values_of};
ghost use Rattle.atspi_launcher.specs.inner.Does.{Does, is_change};

use crate::ask::{Ask, Status};
use crate::asking::asked;
use crate::saying::{
    all_body, changed, description_body, greeting, none_body, refused, returned, switch_body,
    text_body,
};
use atspi_base::{NoMemory, Text};
use atspi_message::Message;
use atspi_message_in_place::MessageRef;
use atspi_protocol::ends::{CallError, EndFault, Mail, Outbox};
use atspi_types::Values;
use std::alloc::Global;
use std::marker::Model;

/// The launcher: it owns the name org.a11y.Bus on a session bus, tells there the address of the accessibility bus, and
/// keeps two properties that toolkits ask for (at-spi2-core's interfaces org.a11y.Bus and org.a11y.Status). What it
/// sends is queued, and handed out by `next`.
#[derive(Drop)]
pub struct Launcher {
    alloc: Global,
    address: Text,
    enabled: bool,
    screen_reader: bool,
    out: Outbox,
}

impl Model for Launcher {
    ghost use Rattle.std.specs.Prelude.{◌≤◌};
    ghost use Rattle.atspi_launcher.specs.inner.Code.{launcher_code};
    ghost use Rattle.atspi_launcher.specs.Launching as launching;

    ghost Value = { launching.Launcher };

    ghost coded = { launcher_code };

    ghost view = { λ l.
        record {
          state =
              record {
                address = l.address;
                enabled = l.enabled;
                screen_reader = l.screen_reader;
                next = l.out.next;
              };
          out = l.out.out;
        } };

    ghost invariant = { λ l. l.out.next ≤ 4294967296 };
}

impl Launcher {
    /// It tells this address, both properties are true, and it has not started.
    pub fn new(alloc: Global, address: Text) -> Launcher
        ensures { result ≡ record { state = begins address; out = [] } }
    {
        Launcher {
            alloc,
            address,
            enabled: true,
            screen_reader: true,
            out: Outbox::new(alloc),
        }
    }

    /// Two calls to the bus are queued: Hello and RequestName (D-Bus Specification, "Message Bus Messages"). Spent only
    /// where their numbers would pass 4,294,967,295; after a fault all is as before.
    pub fn start(&mut self) -> Result<(), EndFault>
        ensures ok { OnOk result (self.new ≡ starts self.old) }
        ensures room { OnOk result ((launcher_starts self.old.state).state.next ≤ 4294967296) }
        ensures spent { IsErrOf result EndFault.Spent → 4294967296 < (launcher_starts self.old.state).state.next }
        ensures err { OnErr result (self.new ≡ self.old) }
    {
        let mut mail = greeting(self.alloc)?;
        self.out.post(&mut mail)?;
        Ok(())
    }

    /// Takes a message, and queues what the launcher sends then. Spent only where its messages would pass number
    /// 4,294,967,295; after a fault all is as before.
    pub fn take(&mut self, m: &MessageRef) -> Result<(), EndFault>
        ensures ok { OnOk result (self.new ≡ takes self.old (envelope_at m.now)) }
        ensures room { OnOk result ((launcher_takes self.old.state (envelope_at m.now)).state.next ≤ 4294967296) }
        ensures spent { IsErrOf result EndFault.Spent
            → 4294967296 < (launcher_takes self.old.state (envelope_at m.now)).state.next }
        ensures err { OnErr result (self.new ≡ self.old) }
    {
        let _queued = &self.out;
        if m.kind != 1 {
            return Ok(());
        }
        self.be_called(m)
    }

    /// The oldest queued message, which is no longer queued.
    pub fn next(&mut self) -> Option<Message>
        ensures front { MatchOption result (self.old.out ≡ [])
            (λ message. self.old.out ≡ envelope_of message ∷ self.new.out) }
        ensures empty { MatchOption result (self.new ≡ self.old) (λ message. self.new.state ≡ self.old.state) }
    {
        match self.out.next() {
            Some(message) => Some(message),
            None => None,
        }
    }

    /// A call: it is answered, or refused. One without a sender is nobody's.
    fn be_called(&mut self, m: &MessageRef) -> Result<(), EndFault>
        requires { ((envelope_at m.now).kind == 1) ≡ true }
        ensures { Does result self.old self.new (launcher_takes self.old.state (envelope_at m.now)) }
    {
        let _queued = &self.out;
        match m.sender {
            None => Ok(()),
            Some(caller) => self.answer(m, caller),
        }
    }

    /// What is asked is done.
    fn answer(&mut self, m: &MessageRef, caller: &str) -> Result<(), EndFault>
        requires { is_bus_name caller.now ≡ true }
        ensures { Does result self.old self.new (launching.called self.old.state caller.now (envelope_at m.now)) }
    {
        match asked(m) {
            Err(error) => self.refuse(m, caller, error),
            Ok(Ask::Set(status, on)) => self.set(m, caller, status, on),
            Ok(ask) => self.tell(m, caller, ask),
        }
    }

    /// The error is queued for the caller.
    fn refuse(&mut self, m: &MessageRef, caller: &str, error: CallError) -> Result<(), EndFault>
        requires { is_bus_name caller.now ≡ true }
        ensures { Does result self.old self.new (answered self.old.state caller.now (envelope_at m.now) (Err error)) }
    {
        let mut mail = refused(self.alloc, m, caller, error)?;
        self.out.post(&mut mail)?;
        Ok(())
    }

    /// What a question is answered with; nothing for what is no question.
    fn values(&self, ask: Ask) -> Result<Values, NoMemory>
        ensures { IfOk result (λ values. all_data values ≡ values_of self.now.state ask) }
    {
        match ask {
            Ask::Address => text_body(self.alloc, &self.address),
            Ask::Get(Status::IsEnabled) => switch_body(self.alloc, self.enabled),
            Ask::Get(Status::ScreenReaderEnabled) => switch_body(self.alloc, self.screen_reader),
            Ask::AllProperties => all_body(self.alloc, self.enabled, self.screen_reader),
            Ask::NoProperties => none_body(self.alloc),
            Ask::Introspect => description_body(self.alloc),
            Ask::Set(_, _) | Ask::Ping => Ok(Values::new(self.alloc)),
        }
    }

    /// A question is answered.
    fn tell(&mut self, m: &MessageRef, caller: &str, ask: Ask) -> Result<(), EndFault>
        requires caller { is_bus_name caller.now ≡ true }
        requires question { is_change ask ≡ false }
        ensures { Does result self.old self.new (answered self.old.state caller.now (envelope_at m.now) (Ok ask)) }
    {
        let values = self.values(ask)?;
        let mut mail = Mail::new(self.alloc);
        returned(self.alloc, m, caller, values, &mut mail)?;
        self.out.post(&mut mail)?;
        Ok(())
    }

    /// The value of a property.
    fn is(&self, status: Status) -> bool
        ensures { result ≡ value_of self.now.state status }
    {
        match status {
            Status::IsEnabled => self.enabled,
            Status::ScreenReaderEnabled => self.screen_reader,
        }
    }

    /// What is told of a property that is set.
    fn news(&self, status: Status, on: bool) -> Result<Mail, NoMemory>
        ensures { IfOk result (λ mail. mail ≡ told_of self.now.state status on) }
    {
        let mut mail = Mail::new(self.alloc);
        if self.is(status) != on {
            mail.push(changed(self.alloc, status, on)?)?;
        }
        Ok(mail)
    }

    /// A property is set, which is told where it had another value; and the caller is returned to.
    fn set(
        &mut self,
        m: &MessageRef,
        caller: &str,
        status: Status,
        on: bool,
    ) -> Result<(), EndFault>
        requires { is_bus_name caller.now ≡ true }
        ensures { Does result self.old self.new
            (answered self.old.state caller.now (envelope_at m.now) (Ok (Ask.Set status on))) }
    {
        let mut mail = self.news(status, on)?;
        returned(self.alloc, m, caller, Values::new(self.alloc), &mut mail)?;
        self.out.post(&mut mail)?;
        match status {
            Status::IsEnabled => self.enabled = on,
            Status::ScreenReaderEnabled => self.screen_reader = on,
        }
        Ok(())
    }
}
