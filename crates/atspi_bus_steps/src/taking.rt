//! A bus takes a message of a connection.

ghost use Rattle.std.specs.Prelude.{◌≡◌, ◌<◌, List, Option, Some, IfOk, OnOk, OnErr, IsErrOf, MatchBool};
ghost use Rattle.atspi_message.specs.Rules.{MeetsRules};
ghost use Rattle.atspi_message_in_place.specs.View.{bytes_of, envelope_at};
ghost use Rattle.atspi_match.specs.declared.condition.Condition.{Condition};
ghost use Rattle.atspi_match.specs.routing.Members as members;
ghost use Rattle.atspi_match.specs.routing.Routing as routing;
ghost use Rattle.atspi_match.specs.routing.Steps as steps;
ghost use Rattle.atspi_match.specs.routing.Queues as queues;
ghost use Rattle.atspi_match.specs.routing.Queues.{stepped};
ghost use Rattle.atspi_bus_steps.specs.InnerBus.{inner_of, state_of};
ghost use Rattle.atspi_bus_steps.specs.Sound.{IsSound};
ghost use Rattle.atspi_bus_steps.specs.Spoken.{IsRuleTaken, IsRuleNamed};
ghost use Rattle.atspi_bus_steps.specs.Greeting.{is_bus_or_none};

use crate::BusFault;
use crate::inner::Inner;
use atspi_base::valid_names::BusName;
use atspi_match::routing::Why;
use atspi_message_in_place::MessageRef;

/// The name of the bus, which is also that of its interface.
const BUS: &str = "org.freedesktop.DBus";

/// Whether a field is there and is this text.
fn is_text(field: Option<&str>, text: &str) -> bool
    ensures { result ≡ members.is_text (bytes_of field.entry) text.now }
{
    match field {
        Some(field) => field == text,
        None => false,
    }
}

/// Whether a message is a call of Hello, which the first of each connection has to be.
pub fn is_hello(m: &MessageRef) -> bool
    ensures { result ≡ steps.is_hello (envelope_at m.now) }
{
    if m.kind != 1 {
        return false;
    }
    if !is_text(m.destination, BUS) {
        return false;
    }
    if !is_text(m.member, "Hello") {
        return false;
    }
    if !is_bus_or_none(m.interface) {
        return false;
    }
    m.body.types().is_empty()
}

/// Whether an interface is that of the bus, or none.
fn is_bus_or_none(interface: Option<&str>) -> bool
    ensures { result ≡ is_bus_or_none (bytes_of interface.entry) }
{
    match interface {
        Some(name) => name == BUS,
        None => true,
    }
}

/// Whether a message is for the bus itself.
pub fn is_for_bus(m: &MessageRef) -> bool
    ensures { result ≡ routing.is_for_bus (envelope_at m.now) }
{
    match m.destination {
        Some(name) => name == BUS,
        None => m.kind == 1,
    }
}

/// A message with its sender.
pub fn with_sender<'a>(m: &MessageRef<'a>, name: &'a BusName) -> MessageRef<'a>
    ensures { envelope_at result ≡ record (envelope_at m.now) { sender = Some name.now } }
{
    MessageRef {
        order: m.order,
        kind: m.kind,
        flags: m.flags,
        serial: m.serial,
        path: m.path,
        interface: m.interface,
        member: m.member,
        error: m.error,
        reply: m.reply,
        destination: m.destination,
        sender: Some(name.as_str()),
        body: m.body,
        body_bytes: m.body_bytes,
    }
}

impl Inner {
    /// A message of a connection that has its name, with its sender.
    fn take_named(&mut self, conn: u32, m: &MessageRef) -> Result<(), BusFault>
        requires sound { IsSound (state_of self.old) }
        requires meets { MeetsRules (envelope_at m.now) }
        ensures ok { OnOk result ((rule : Option (List Condition)) × IsRuleNamed (envelope_at m.now) rule
            × (inner_of self.new
            ≡ stepped (inner_of self.old) (steps.takes_from_named (state_of self.old) conn (envelope_at m.now) rule))) }
        ensures sound { OnOk result (IsSound (state_of self.new)) }
        ensures spent { IsErrOf result BusFault.Spent
            → (rule : Option (List Condition)) × IsRuleNamed (envelope_at m.now) rule
            × (4294967296 < (steps.takes_from_named (state_of self.old) conn (envelope_at m.now) rule).state.next) }
    {
        if is_for_bus(m) {
            if m.kind == 1 {
                self.call(conn, m)
            } else {
                Ok(())
            }
        } else {
            self.pass_on(conn, m)
        }
    }

    /// A message of a connection with this unique name.
    fn take_from(&mut self, conn: u32, name: &BusName, m: &MessageRef) -> Result<(), BusFault>
        requires sound { IsSound (state_of self.old) }
        requires meets { MeetsRules (envelope_at m.now) }
        ensures ok { OnOk result ((rule : Option (List Condition)) × IsRuleNamed (envelope_at m.now) rule
            × (inner_of self.new
            ≡ stepped (inner_of self.old)
            (steps.takes_from_named (state_of self.old) conn (record (envelope_at m.now) { sender = Some name.now })
            rule))) }
        ensures sound { OnOk result (IsSound (state_of self.new)) }
        ensures spent { IsErrOf result BusFault.Spent
            → (rule : Option (List Condition)) × IsRuleNamed (envelope_at m.now) rule
            × (4294967296
            < (steps.takes_from_named (state_of self.old) conn (record (envelope_at m.now) { sender = Some name.now })
            rule).state.next) }
    {
        self.take_named(conn, &with_sender(m, name))
    }

    /// What a bus does with a message, apart from the closings that it brings. After a fault nothing is known of it.
    fn make_step(&mut self, conn: u32, m: &MessageRef) -> Result<(), BusFault>
        requires sound { IsSound (state_of self.old) }
        requires meets { MeetsRules (envelope_at m.now) }
        ensures ok { OnOk result
            ((rule : Option (List Condition)) × IsRuleTaken (state_of self.old) conn (envelope_at m.now) rule
            × (inner_of self.new
            ≡ stepped (inner_of self.old) (steps.bus_takes (state_of self.old) conn (envelope_at m.now) rule))) }
        ensures sound { OnOk result (IsSound (state_of self.new)) }
        ensures spent { IsErrOf result BusFault.Spent
            → (rule : Option (List Condition)) × IsRuleTaken (state_of self.old) conn (envelope_at m.now) rule
            × (4294967296 < (steps.bus_takes (state_of self.old) conn (envelope_at m.now) rule).state.next) }
    {
        match self.names.unique_name(conn) {
            Some(name) => {
                let name = name.copy(self.alloc)?;
                self.take_from(conn, &name, m)
            }
            None => {
                if is_hello(m) {
                    self.greet(conn, m)
                } else {
                    Ok(self.queues.doom(conn, Why::NotHello)?)
                }
            }
        }
    }

    /// What a bus does with a message, apart from the closings that it brings, which `settle` makes. After a fault the
    /// bus is given up: it is one of quota 0, to which nobody has joined.
    pub fn step(&mut self, conn: u32, m: &MessageRef) -> Result<(), BusFault>
        requires sound { IsSound (state_of self.old) }
        requires meets { MeetsRules (envelope_at m.now) }
        ensures ok { OnOk result
            ((rule : Option (List Condition)) × IsRuleTaken (state_of self.old) conn (envelope_at m.now) rule
            × (inner_of self.new
            ≡ stepped (inner_of self.old) (steps.bus_takes (state_of self.old) conn (envelope_at m.now) rule))) }
        ensures sound { OnOk result (IsSound (state_of self.new)) }
        ensures spent { IsErrOf result BusFault.Spent
            → (rule : Option (List Condition)) × IsRuleTaken (state_of self.old) conn (envelope_at m.now) rule
            × (4294967296 < (steps.bus_takes (state_of self.old) conn (envelope_at m.now) rule).state.next) }
        ensures err { OnErr result (inner_of self.new ≡ queues.empty_bus 0) }
    {
        match self.make_step(conn, m) {
            Ok(()) => Ok(()),
            Err(fault) => {
                self.give_up();
                Err(fault)
            }
        }
    }

    /// The bus takes a message of a connection in place: one that is passed on, while nobody is to be closed and each
    /// receiver has room for it. It answers whether that is so. Where it is not, and after a fault, all is as before.
    pub fn take_in_place(&mut self, conn: u32, m: &MessageRef) -> Result<bool, BusFault>
        requires sound { IsSound (state_of self.old) }
        requires meets { MeetsRules (envelope_at m.now) }
        ensures ok { IfOk result (λ went. MatchBool went
            ((rule : Option (List Condition)) × IsRuleTaken (state_of self.old) conn (envelope_at m.now) rule
            × (inner_of self.new ≡ queues.takes (inner_of self.old) conn (envelope_at m.now) rule))
            (inner_of self.new ≡ inner_of self.old)) }
        ensures sound { IsSound (state_of self.new) }
        ensures spent { IsErrOf result BusFault.Spent → ⊥ }
        ensures err { OnErr result (inner_of self.new ≡ inner_of self.old) }
    {
        if self.queues.first_due().is_some() {
            return Ok(false);
        }
        if is_for_bus(m) {
            return Ok(false);
        }
        self.pass_in_place(conn, m)
    }

    /// The bus takes a message of a connection. After a fault the bus is given up: it is one of quota 0, to which
    /// nobody has joined.
    pub fn take(&mut self, conn: u32, m: &MessageRef) -> Result<(), BusFault>
        requires sound { IsSound (state_of self.old) }
        requires meets { MeetsRules (envelope_at m.now) }
        ensures ok { OnOk result
            ((rule : Option (List Condition)) × IsRuleTaken (state_of self.old) conn (envelope_at m.now) rule
            × (inner_of self.new ≡ queues.takes (inner_of self.old) conn (envelope_at m.now) rule)) }
        ensures sound { OnOk result (IsSound (state_of self.new)) }
        ensures spent { IsErrOf result BusFault.Spent
            → (rule : Option (List Condition)) × IsRuleTaken (state_of self.old) conn (envelope_at m.now) rule
            × (4294967296 < (queues.takes (inner_of self.old) conn (envelope_at m.now) rule).state.next) }
        ensures err { OnErr result (inner_of self.new ≡ queues.empty_bus 0) }
    {
        let rounds = self.joined.len();
        match self.step(conn, m) {
            Ok(()) => self.settle(rounds),
            Err(fault) => Err(fault),
        }
    }

    /// A connection leaves by itself. After a fault the bus is given up: it is one of quota 0, to which nobody has
    /// joined.
    pub fn part_with(&mut self, conn: u32) -> Result<(), BusFault>
        requires sound { IsSound (state_of self.old) }
        ensures ok { OnOk result (inner_of self.new ≡ queues.leaves (inner_of self.old) conn) }
        ensures sound { OnOk result (IsSound (state_of self.new)) }
        ensures spent { IsErrOf result BusFault.Spent
            → 4294967296 < (queues.leaves (inner_of self.old) conn).state.next }
        ensures err { OnErr result (inner_of self.new ≡ queues.empty_bus 0) }
    {
        let rounds = self.joined.len();
        match self.leave(conn) {
            Ok(()) => self.settle(rounds),
            Err(fault) => {
                self.give_up();
                Err(fault)
            }
        }
    }
}
