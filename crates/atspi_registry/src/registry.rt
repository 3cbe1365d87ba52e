//! The registry.

ghost use Rattle.std.specs.Prelude.{◌≡◌, ◌==◌, ◌<◌, ◌≤◌, ◌^◌, true, false, Some, is_some, ℕ, List, [], ◌∷◌, chars};
ghost use Rattle.std.specs.Prelude.{codes, encode_utf8_all, length, IfOk, IsErrOf, MatchOption, OnOk, OnErr};
ghost use Rattle.atspi_base.specs.Text.{HasNoZero};
ghost use Rattle.atspi_base.specs.valid_names.Names.{is_bus_name, IsPath};
ghost use Rattle.atspi_types.specs.DataView.{all_data};
ghost use Rattle.atspi_message.specs.Envelope.{envelope_of};
ghost use Rattle.atspi_message_in_place.specs.View.{envelope_at};
ghost use Rattle.atspi_protocol.specs.ends.Messages.{error_word, returns, fails};
ghost use Rattle.atspi_protocol.specs.registering.RegistryState.{begins};
ghost use Rattle.atspi_protocol.specs.registering.Answers.{only, registers, deregisters, adopts, new_child, releases};
ghost use Rattle.atspi_protocol.specs.registering.Answers.{if_own};
ghost use Rattle.atspi_protocol.specs.registering.Steps as steps;
ghost use Rattle.atspi_protocol.specs.registering.Steps.{starts, takes, registry_starts, registry_takes, answered};
ghost use Rattle.atspi_protocol.specs.registering.Steps.{forgets};
ghost use Rattle.atspi_registry.specs.calls.Ask.{answers_ask, IsLent};
ghost use Rattle.atspi_registry.specs.inner.Questions.{IsQuestion};
ghost use Rattle.atspi_registry.specs.inner.Steps.{Does, own_name};

use crate::calls::{Ask, asked};
use crate::keeping::{drop_child, has_child, is_same, keep_child, keep_pair, one_more};
use crate::lists::{Children, Pairs};
use crate::mails::{
    adoption, deregistration, farewell, greeting, refusal, registration, release, reply,
};
use crate::news::{is_call, name_gone, name_told};
use crate::outgoing::Outgoing;
use crate::questions::question_values;
use crate::told::root_body;
use atspi_base::{NoMemory, Text};
use atspi_message::Message;
use atspi_message_in_place::MessageRef;
use atspi_protocol::ends::{CallError, EndFault, bus_name, path};
use atspi_types::Values;
use std::alloc::Global;
use std::marker::Model;

/// The registry (AT-SPI2's registry and socket interfaces): the listeners' pairs and the embedded roots, both in order
/// of arrival. What it sends is queued, and handed out by `next`. It keeps the allocator that it was made with.
#[derive(Drop)]
pub struct Registry {
    alloc: Global,
    pairs: Pairs,
    children: Children,
    embeds: u32,
    hello: Option<u32>,
    own: Option<Text>,
    out: Outgoing,
}

impl Model for Registry {
    ghost use Rattle.std.specs.Prelude.{◌≤◌};
    ghost use Rattle.atspi_registry.specs.Code.{registry_code};
    ghost use Rattle.atspi_protocol.specs.registering.Steps as steps;

    ghost Value = { steps.Registry };

    ghost coded = { registry_code };

    ghost view = { λ r.
        record {
          state =
              record {
                pairs = r.pairs;
                children = r.children;
                embeds = r.embeds;
                hello = r.hello;
                own = r.own;
                next = r.out.next;
              };
          out = r.out.out;
        } };

    ghost invariant = { λ r. r.out.next ≤ 4294967296 };
}

impl Registry {
    /// It knows nobody, and has not started.
    pub fn new(alloc: Global) -> Result<Registry, NoMemory>
        ensures { IfOk result (λ registry. registry ≡ record { state = begins; out = [] }) }
    {
        Ok(Registry {
            alloc,
            pairs: Pairs::new(alloc),
            children: Children::new(alloc),
            embeds: 0,
            hello: None,
            own: None,
            out: Outgoing::new(alloc),
        })
    }

    /// Three calls to the bus are queued: Hello, RequestName and AddMatch (D-Bus Specification, "Message Bus
    /// Messages"). Spent only where their numbers would pass 4,294,967,295, and then it is refused; after a fault all
    /// is as before.
    pub fn start(&mut self) -> Result<(), EndFault>
        ensures ok { OnOk result (self.new ≡ starts self.old) }
        ensures room { OnOk result ((registry_starts self.old.state).state.next ≤ 4294967296) }
        ensures spent { IsErrOf result EndFault.Spent → 4294967296 < (registry_starts self.old.state).state.next }
        ensures err { OnErr result (self.new ≡ self.old) }
    {
        let mut mail = greeting(self.alloc)?;
        let hello = self.out.next_number();
        self.out.post(&mut mail)?;
        self.hello = Some(hello as u32);
        Ok(())
    }

    /// Takes a message, and queues what the registry sends then. Spent only where its messages would pass number
    /// 4,294,967,295, and then it is refused; after a fault all is as before.
    pub fn take(&mut self, m: &MessageRef) -> Result<(), EndFault>
        ensures ok { OnOk result (self.new ≡ takes self.old (envelope_at m.now)) }
        ensures room { OnOk result ((registry_takes self.old.state (envelope_at m.now)).state.next ≤ 4294967296) }
        ensures spent { IsErrOf result EndFault.Spent
            → 4294967296 < (registry_takes self.old.state (envelope_at m.now)).state.next }
        ensures err { OnErr result (self.new ≡ self.old) }
    {
        if !self.is_named() {
            return self.be_named(m);
        }
        if is_call(m) {
            return self.be_called(m);
        }
        self.hear(m)
    }

    /// The oldest queued message, which is no longer queued.
    pub fn next(&mut self) -> Option<Message>
        ensures front { MatchOption result (self.old.out ≡ [])
            (λ message. self.old.out ≡ envelope_of message ∷ self.new.out) }
        ensures empty { MatchOption result (self.new ≡ self.old) (λ message. self.new.state ≡ self.old.state) }
    {
        match self.out.next() {
            Some(message) => Some(message),
            None => None,
        }
    }

    /// Whether its name was told.
    fn is_named(&self) -> bool
        ensures named { result ≡ is_some self.now.state.own }
        ensures within { self.now.state.next ≤ 4294967296 }
    {
        self.own.is_some()
    }

    /// The number of its call of Hello, once that is made.
    fn hello_number(&self) -> Option<u32>
        ensures { result ≡ self.now.state.hello }
    {
        self.hello
    }

    /// Before it has its name: the return to Hello tells it.
    fn be_named(&mut self, m: &MessageRef) -> Result<(), EndFault>
        requires own { is_some self.old.state.own ≡ false }
        requires within { self.old.state.next ≤ 4294967296 }
        ensures { Does result self.old self.new (registry_takes self.old.state (envelope_at m.now)) }
    {
        match name_told(self.hello_number(), m) {
            Some(name) => self.take_name(name),
            None => Ok(()),
        }
    }

    /// This is its name.
    fn take_name(&mut self, name: &str) -> Result<(), EndFault>
        requires no_zero { HasNoZero name.now }
        requires counted { length name.now < 2 ^ 32 }
        ensures { Does result self.old self.new (steps.named self.old.state (Some (chars name.now))) }
    {
        let text = Text::of(self.alloc, name)?;
        self.own = Some(text);
        Ok(())
    }

    /// A call: it is answered, or refused.
    fn be_called(&mut self, m: &MessageRef) -> Result<(), EndFault>
        requires named { is_some self.old.state.own ≡ true }
        requires call { ((envelope_at m.now).kind == 1) ≡ true }
        requires within { self.old.state.next ≤ 4294967296 }
        ensures { Does result self.old self.new (registry_takes self.old.state (envelope_at m.now)) }
    {
        match m.sender {
            None => Ok(()),
            Some(sender) => match asked(m) {
                Ok(ask) => self.answer(m, sender, ask),
                Err(error) => self.refuse(m, sender, error),
            },
        }
    }

    /// No call: it may be the news that somebody left.
    fn hear(&mut self, m: &MessageRef) -> Result<(), EndFault>
        requires named { is_some self.old.state.own ≡ true }
        requires no_call { ((envelope_at m.now).kind == 1) ≡ false }
        requires within { self.old.state.next ≤ 4294967296 }
        ensures { Does result self.old self.new (registry_takes self.old.state (envelope_at m.now)) }
    {
        match name_gone(m) {
            Some(name) => self.lose(name),
            None => Ok(()),
        }
    }

    /// What is asked is done.
    fn answer(&mut self, m: &MessageRef, sender: &str, ask: Ask) -> Result<(), EndFault>
        requires name { is_bus_name sender.now ≡ true }
        requires lent { IsLent ask }
        ensures { Does result self.old self.new
            (answered self.old.state sender.now (envelope_at m.now)
            (answers_ask ask.entry self.old.state (own_name self.old.state) sender.now)) }
    {
        match ask {
            Ask::Register(pattern) => self.register(m, sender, pattern),
            Ask::Deregister(pattern) => self.deregister(m, sender, pattern),
            Ask::Embed(name, place) => self.embed(m, sender, name, place),
            Ask::Unembed(name, _) => self.unembed(m, sender, name),
            Ask::Registered => self.tell(m, sender, Ask::Registered),
            Ask::Children => self.tell(m, sender, Ask::Children),
            Ask::ChildAt(index) => self.tell(m, sender, Ask::ChildAt(index)),
            Ask::Role => self.tell(m, sender, Ask::Role),
            Ask::RoleName => self.tell(m, sender, Ask::RoleName),
            Ask::Name => self.tell(m, sender, Ask::Name),
            Ask::ChildCount => self.tell(m, sender, Ask::ChildCount),
            Ask::AllProperties => self.tell(m, sender, Ask::AllProperties),
            Ask::NoProperties => self.tell(m, sender, Ask::NoProperties),
            Ask::Ping => self.tell(m, sender, Ask::Ping),
        }
    }

    /// The error is queued for the caller.
    fn refuse(&mut self, m: &MessageRef, sender: &str, error: CallError) -> Result<(), EndFault>
        requires { is_bus_name sender.now ≡ true }
        ensures { Does result self.old self.new
            (answered self.old.state sender.now (envelope_at m.now) (only self.old.state (fails (error_word error)))) }
    {
        let mut mail = refusal(self.alloc, m, sender, error)?;
        self.out.post(&mut mail)?;
        Ok(())
    }

    /// The values are queued for the caller.
    fn give(&mut self, m: &MessageRef, sender: &str, values: Values) -> Result<(), EndFault>
        requires { is_bus_name sender.now ≡ true }
        ensures { Does result self.old self.new
            (answered self.old.state sender.now (envelope_at m.now) (only self.old.state (returns (all_data values)))) }
    {
        let mut mail = reply(self.alloc, m, sender, values)?;
        self.out.post(&mut mail)?;
        Ok(())
    }

    /// A question is answered.
    fn tell(&mut self, m: &MessageRef, sender: &str, ask: Ask) -> Result<(), EndFault>
        requires name { is_bus_name sender.now ≡ true }
        requires question { IsQuestion ask }
        ensures { Does result self.old self.new
            (answered self.old.state sender.now (envelope_at m.now)
            (answers_ask ask.entry self.old.state (own_name self.old.state) sender.now)) }
    {
        let values = question_values(self.alloc, &self.pairs, &self.children, &self.own, ask)?;
        self.give(m, sender, values)
    }

    /// A pattern is kept and told, where it is new, and the caller is returned to.
    fn register(&mut self, m: &MessageRef, sender: &str, pattern: &str) -> Result<(), EndFault>
        requires name { is_bus_name sender.now ≡ true }
        requires no_zero { HasNoZero pattern.now }
        requires counted { length pattern.now < 2 ^ 32 }
        ensures { Does result self.old self.new
            (answered self.old.state sender.now (envelope_at m.now)
            (registers self.old.state sender.now (chars pattern.now))) }
    {
        if self.pairs.has(sender, pattern) {
            return self.give(m, sender, Values::new(self.alloc));
        }
        let name = bus_name(self.alloc, sender)?;
        let text = Text::of(self.alloc, pattern)?;
        let mut mail = registration(self.alloc, m, &name, &text)?;
        keep_pair(&mut self.pairs, &mut self.out, name, text, &mut mail)?;
        Ok(())
    }

    /// A pattern is no longer kept, and that is told, where it was; the caller is returned to.
    fn deregister(&mut self, m: &MessageRef, sender: &str, pattern: &str) -> Result<(), EndFault>
        requires name { is_bus_name sender.now ≡ true }
        requires no_zero { HasNoZero pattern.now }
        requires counted { length pattern.now < 2 ^ 32 }
        ensures { Does result self.old self.new
            (answered self.old.state sender.now (envelope_at m.now)
            (deregisters self.old.state sender.now (chars pattern.now))) }
    {
        if !self.pairs.has(sender, pattern) {
            return self.give(m, sender, Values::new(self.alloc));
        }
        let mut mail = deregistration(self.alloc, m, sender, pattern)?;
        self.out.post(&mut mail)?;
        self.pairs.remove(sender, pattern);
        Ok(())
    }

    /// The caller's root becomes a child, if the root is the caller's own.
    fn embed(
        &mut self,
        m: &MessageRef,
        sender: &str,
        name: &str,
        place: &str,
    ) -> Result<(), EndFault>
        requires name { is_bus_name sender.now ≡ true }
        requires place { IsPath place.now }
        ensures { Does result self.old self.new
            (answered self.old.state sender.now (envelope_at m.now)
            (if_own self.old.state sender.now (chars name.now, place.now)
            (adopts self.old.state (sender.now, place.now)))) }
    {
        if !is_same(name, sender) {
            return self.refuse(m, sender, CallError::InvalidArgs);
        }
        self.adopt(m, sender, place)
    }

    /// The caller's root becomes a child, at most once.
    fn adopt(&mut self, m: &MessageRef, sender: &str, place: &str) -> Result<(), EndFault>
        requires name { is_bus_name sender.now ≡ true }
        requires place { IsPath place.now }
        ensures { Does result self.old self.new
            (answered self.old.state sender.now (envelope_at m.now) (adopts self.old.state (sender.now, place.now))) }
    {
        if has_child(&self.children, sender) {
            let root = root_body(self.alloc)?;
            return self.give(m, sender, root);
        }
        self.add_child(m, sender, place)
    }

    /// The caller's root becomes a child.
    #[tactic(auto, using(std::proofs::lemmas::List::append_assoc))]
    fn add_child(&mut self, m: &MessageRef, sender: &str, place: &str) -> Result<(), EndFault>
        requires name { is_bus_name sender.now ≡ true }
        requires place { IsPath place.now }
        ensures { Does result self.old self.new
            (answered self.old.state sender.now (envelope_at m.now)
            (new_child self.old.state (sender.now, place.now))) }
    {
        let name = bus_name(self.alloc, sender)?;
        let place = path(self.alloc, place)?;
        let index = self.children.as_slice().len();
        let mut mail = adoption(
            self.alloc,
            &self.pairs,
            m,
            &name,
            &place,
            self.embeds,
            index,
        )?;
        keep_child(&mut self.children, &mut self.out, name, place, &mut mail)?;
        self.embeds = one_more(self.embeds);
        Ok(())
    }

    /// The caller's child goes, if the root is the caller's own.
    fn unembed(&mut self, m: &MessageRef, sender: &str, name: &str) -> Result<(), EndFault>
        requires { is_bus_name sender.now ≡ true }
        ensures { (place : List ℕ)
            → Does result self.old self.new
            (answered self.old.state sender.now (envelope_at m.now)
            (if_own self.old.state sender.now (chars name.now, place) (releases self.old.state sender.now))) }
    {
        if !is_same(name, sender) {
            return self.refuse(m, sender, CallError::InvalidArgs);
        }
        self.give_back(m, sender)
    }

    /// The caller's child goes, if it has one.
    fn give_back(&mut self, m: &MessageRef, sender: &str) -> Result<(), EndFault>
        requires { is_bus_name sender.now ≡ true }
        ensures { Does result self.old self.new
            (answered self.old.state sender.now (envelope_at m.now) (releases self.old.state sender.now)) }
    {
        let place = self.children.place(sender);
        let mut mail = release(self.alloc, &self.pairs, &self.children, place, m, sender)?;
        self.out.post(&mut mail)?;
        drop_child(&mut self.children, place);
        Ok(())
    }

    /// A connection left that has this name.
    fn lose(&mut self, name: &str) -> Result<(), EndFault>
        ensures { Does result self.old self.new (forgets self.old.state (encode_utf8_all (chars name.now))) }
    {
        self.forget(name)
    }

    /// A connection left: its pairs go, then its child.
    fn forget(&mut self, name: &str) -> Result<(), EndFault>
        ensures { Does result self.old self.new (forgets self.old.state name.now) }
    {
        let place = self.children.place(name);
        let mut mail = farewell(self.alloc, &self.pairs, &self.children, name, place)?;
        self.out.post(&mut mail)?;
        self.pairs.drop_name(name);
        drop_child(&mut self.children, place);
        Ok(())
    }
}
