//! What the registry keeps, together with the messages that it queues then: both or neither.

ghost use Rattle.std.specs.Prelude.{◌≡◌, ◌<◌, ◌≤◌, ◌+◌, ◌++◌, [], ◌∷◌, min, bytes_eq, length, IfSome, IsErrOf, OnOk};
ghost use Rattle.std.specs.Prelude.{OnErr};
ghost use Rattle.std.specs.List.{list_any};
ghost use Rattle.atspi_protocol.specs.ends.Messages.{posted};
ghost use Rattle.atspi_protocol.specs.registering.RegistryState as state;
ghost use Rattle.atspi_protocol.specs.registering.Answers.{children_without};

use crate::lists::{Children, Pairs};
use crate::outgoing::Outgoing;
use atspi_base::Text;
use atspi_base::valid_names::{BusName, Path};
use atspi_protocol::ends::{EndFault, Mail};

/// A pair is kept and messages are queued.
pub fn keep_pair(
    pairs: &mut Pairs,
    out: &mut Outgoing,
    name: BusName,
    pattern: Text,
    mail: &mut Mail,
) -> Result<(), EndFault>
    requires { out.old.next ≤ 4294967296 }
    ensures pairs { OnOk result (pairs.new ≡ pairs.old ++ (name, pattern) ∷ []) }
    ensures done { OnOk result (out.new ≡ posted out.old mail.old) }
    ensures room { OnOk result (out.old.next + length mail.old ≤ 4294967296) }
    ensures spent { IsErrOf result EndFault.Spent → 4294967296 < out.old.next + length mail.old }
    ensures pairs_kept { OnErr result (pairs.new ≡ pairs.old) }
    ensures kept { OnErr result (out.new ≡ out.old) }
    ensures within { out.new.next ≤ 4294967296 }
{
    let count = pairs.as_slice().len();
    pairs.push(name, pattern)?;
    match out.post(mail) {
        Ok(()) => Ok(()),
        Err(fault) => {
            pairs.truncate(count);
            Err(fault)
        }
    }
}

/// A child is kept and messages are queued.
pub fn keep_child(
    children: &mut Children,
    out: &mut Outgoing,
    name: BusName,
    place: Path,
    mail: &mut Mail,
) -> Result<(), EndFault>
    requires { out.old.next ≤ 4294967296 }
    ensures children { OnOk result (children.new ≡ children.old ++ (name, place) ∷ []) }
    ensures done { OnOk result (out.new ≡ posted out.old mail.old) }
    ensures room { OnOk result (out.old.next + length mail.old ≤ 4294967296) }
    ensures spent { IsErrOf result EndFault.Spent → 4294967296 < out.old.next + length mail.old }
    ensures children_kept { OnErr result (children.new ≡ children.old) }
    ensures kept { OnErr result (out.new ≡ out.old) }
    ensures within { out.new.next ≤ 4294967296 }
{
    let count = children.as_slice().len();
    children.push(name, place)?;
    match out.post(mail) {
        Ok(()) => Ok(()),
        Err(fault) => {
            children.truncate(count);
            Err(fault)
        }
    }
}

/// Whether the two names are the same.
pub fn is_same(name: &str, other: &str) -> bool
    ensures { result ≡ bytes_eq name.now other.now }
{
    name == other
}

/// Whether the child is the application's.
fn is_of(child: &(BusName, Path), name: &str) -> bool
    ensures { result ≡ state.is_of name.now child.now }
{
    child.0.as_str() == name
}

/// Whether the application has a child.
pub fn has_child(children: &Children, name: &str) -> bool
    ensures { result ≡ list_any (state.is_of name.now) children.now }
{
    children.as_slice().iter().any(|child| is_of(child, name))
}

/// The child at a place goes, if there is one.
pub fn drop_child(children: &mut Children, place: Option<usize>)
    requires { IfSome place (λ i. i < length children.old) }
    ensures { children.new ≡ children_without children.old place }
{
    match place {
        Some(i) => children.remove(i),
        None => {}
    }
}

/// One root more was embedded; the count stands still at the end of a signed number.
pub fn one_more(embeds: u32) -> u32
    ensures { result ≡ min (embeds + 1) 2147483647 }
{
    if embeds < 2147483647 {
        embeds + 1
    } else {
        2147483647
    }
}
