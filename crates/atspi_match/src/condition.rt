//! The conditions that a match rule is made of.

ghost use Rattle.std.specs.Prelude.{◌≡◌, IfOk};
ghost use Rattle.std.specs.Cmp.{partial_equiv_from_equiv};
ghost use Rattle.std.proofs.lemmas.Cmp.{and_equiv, on_equiv, nat_eq_equiv, nat_list_eq_equiv};
ghost use Rattle.atspi_match.specs.Conditions.{rank, type_text, value_text};
ghost use Rattle.atspi_match.specs.Matching.{type_number};
ghost use Rattle.atspi_match.specs.Conditions.{same_condition};

use atspi_base::valid_names::{BusName, Interface, Member, Path};
use atspi_base::{NoMemory, Text};
use std::alloc::Global;

/// The type of message that a condition asks for.
#[derive(Clone, Copy, Debug, PartialEq, Eq)]
pub enum MessageType {
    Signal,
    MethodCall,
    MethodReturn,
    Error,
}

impl MessageType {
    /// The number that such a message has as its type.
    pub fn number(self) -> u8
        ensures { result ≡ type_number self }
    {
        match self {
            MessageType::MethodCall => 1,
            MessageType::MethodReturn => 2,
            MessageType::Error => 3,
            MessageType::Signal => 4,
        }
    }

    /// The name of the type in a rule.
    pub fn name(self) -> &'static [u8]
        ensures { result.now ≡ type_text self }
    {
        match self {
            MessageType::Signal => b"signal",
            MessageType::MethodCall => b"method_call",
            MessageType::MethodReturn => b"method_return",
            MessageType::Error => b"error",
        }
    }
}

/// One key of a match rule with its value (D-Bus Specification, "Match Rules").
#[derive(Drop)]
pub enum Condition {
    /// `type`
    Kind(MessageType),
    /// `sender`
    Sender(BusName),
    /// `interface`
    Interface(Interface),
    /// `member`
    Member(Member),
    /// `path`
    Path(Path),
    /// `path_namespace`
    PathNamespace(Path),
    /// `destination`
    Destination(BusName),
    /// `arg0` to `arg63`
    Arg { index: u8, text: Text },
    /// `arg0path` to `arg63path`
    ArgPath { index: u8, text: Text },
    /// `arg0namespace`
    Arg0Namespace(Text),
    /// `eavesdrop`
    Eavesdrop(bool),
}

impl Condition {
    /// The place of the key among the keys.
    pub fn rank(&self) -> u16
        ensures { result ≡ rank self.now }
    {
        match self {
            Condition::Kind(_) => 0,
            Condition::Sender(_) => 1,
            Condition::Interface(_) => 2,
            Condition::Member(_) => 3,
            Condition::Path(_) => 4,
            Condition::PathNamespace(_) => 5,
            Condition::Destination(_) => 6,
            Condition::Arg { index, .. } => 7 + *index as u16,
            Condition::ArgPath { index, .. } => 71 + *index as u16,
            Condition::Arg0Namespace(_) => 135,
            Condition::Eavesdrop(_) => 136,
        }
    }

    /// An equal condition.
    pub fn copy(&self, alloc: Global) -> Result<Condition, NoMemory>
        ensures { IfOk result (λ condition. condition ≡ self.now) }
    {
        Ok(match self {
            Condition::Kind(kind) => Condition::Kind(*kind),
            Condition::Sender(name) => Condition::Sender(name.copy(alloc)?),
            Condition::Interface(name) => Condition::Interface(name.copy(alloc)?),
            Condition::Member(name) => Condition::Member(name.copy(alloc)?),
            Condition::Path(path) => Condition::Path(path.copy(alloc)?),
            Condition::PathNamespace(path) => Condition::PathNamespace(path.copy(alloc)?),
            Condition::Destination(name) => Condition::Destination(name.copy(alloc)?),
            Condition::Arg { index, text } => Condition::Arg {
                index: *index,
                text: text.copy(alloc)?,
            },
            Condition::ArgPath { index, text } => Condition::ArgPath {
                index: *index,
                text: text.copy(alloc)?,
            },
            Condition::Arg0Namespace(text) => Condition::Arg0Namespace(text.copy(alloc)?),
            Condition::Eavesdrop(on) => Condition::Eavesdrop(*on),
        })
    }

    /// The bytes of the value.
    pub fn value(&self) -> &[u8]
        ensures { result.now ≡ value_text self.now }
    {
        match self {
            Condition::Kind(kind) => kind.name(),
            Condition::Sender(name) => name.as_str().as_bytes(),
            Condition::Interface(name) => name.as_str().as_bytes(),
            Condition::Member(name) => name.as_str().as_bytes(),
            Condition::Path(path) => path.as_str().as_bytes(),
            Condition::PathNamespace(path) => path.as_str().as_bytes(),
            Condition::Destination(name) => name.as_str().as_bytes(),
            Condition::Arg { text, .. } => text.as_str().as_bytes(),
            Condition::ArgPath { text, .. } => text.as_str().as_bytes(),
            Condition::Arg0Namespace(text) => text.as_str().as_bytes(),
            Condition::Eavesdrop(true) => b"true",
            Condition::Eavesdrop(false) => b"false",
        }
    }
}

impl PartialEq for Condition {
    ghost eq = { same_condition };

    ghost laws = { partial_equiv_from_equiv
        (and_equiv (on_equiv rank nat_eq_equiv) (on_equiv value_text nat_list_eq_equiv)) };

    fn eq(&self, other: &Condition) -> bool {
        self.rank() == other.rank() && self.value() == other.value()
    }
}

impl Eq for Condition {
    ghost laws = { and_equiv (on_equiv rank nat_eq_equiv) (on_equiv value_text nat_list_eq_equiv) };
}
