//! The messages of a call, made before anything changes.

ghost use Rattle.std.specs.Prelude.{◌≡◌, ◌<◌, ◌^◌, true, [], ◌∷◌, ◌++◌, chars, codes, length, map, option_copied, IfOk};
ghost use Rattle.std.specs.Prelude.{OnOk};
ghost use Rattle.std.specs.List.{list_any};
ghost use Rattle.atspi_base.specs.Text.{HasNoZero};
ghost use Rattle.atspi_base.specs.valid_names.Names.{is_bus_name, IsPath};
ghost use Rattle.atspi_types.specs.DataView.{all_data};
ghost use Rattle.atspi_message_in_place.specs.View.{envelope_at};
ghost use Rattle.atspi_protocol.specs.ends.Messages.{error_word, returns, fails, replies};
ghost use Rattle.atspi_protocol.specs.ends.Places.{registry_root};
ghost use Rattle.atspi_protocol.specs.registering.RegistryState as state;
ghost use Rattle.atspi_protocol.specs.registering.RegistryState.{pairs_of, pairs_without};
ghost use Rattle.atspi_protocol.specs.registering.Told as tells;
ghost use Rattle.atspi_protocol.specs.registering.Told.{is_asked_for};
ghost use Rattle.atspi_protocol.specs.registering.Answers.{news_of_removal};
ghost use Rattle.atspi_registry.specs.inner.Steps.{removal_told, told_at, told_pair};

use crate::lists::{Children, Pairs};
use crate::told as told;
use atspi_base::valid_names::{BusName, NameFault, Path};
use atspi_base::{NoMemory, Text};
use atspi_message_in_place::MessageRef;
use atspi_protocol::ends::{CallError, Mail, bus_name, covers};
use atspi_types::Values;
use std::alloc::Global;

/// The three calls to the bus at the start.
pub fn greeting(alloc: Global) -> Result<Mail, NoMemory>
    ensures { IfOk result (λ mail. mail ≡ tells.hello_call ∷ tells.request_call ∷ tells.match_call ∷ []) }
{
    let mut mail = Mail::new(alloc);
    mail.push(told::hello_call(alloc)?)?;
    mail.push(told::request_call(alloc)?)?;
    mail.push(told::match_call(alloc)?)?;
    Ok(mail)
}

/// Values are returned to the caller, where it waits for them.
pub fn reply(alloc: Global, m: &MessageRef, sender: &str, values: Values) -> Result<Mail, NoMemory>
    requires { is_bus_name sender.now ≡ true }
    ensures { IfOk result (λ mail. mail ≡ replies sender.now (envelope_at m.now) (returns (all_data values))) }
{
    let caller = bus_name(alloc, sender)?;
    let mut mail = Mail::new(alloc);
    told::returned(alloc, m, &caller, values, &mut mail)?;
    Ok(mail)
}

/// The caller gets an error, where it waits for a reply.
pub fn refusal(
    alloc: Global,
    m: &MessageRef,
    sender: &str,
    error: CallError,
) -> Result<Mail, NoMemory>
    requires { is_bus_name sender.now ≡ true }
    ensures { IfOk result (λ mail. mail ≡ replies sender.now (envelope_at m.now) (fails (error_word error))) }
{
    let caller = bus_name(alloc, sender)?;
    let mut mail = Mail::new(alloc);
    told::refused(alloc, m, &caller, error, &mut mail)?;
    Ok(mail)
}

/// A pattern more is told, and then the caller is returned to.
pub fn registration(
    alloc: Global,
    m: &MessageRef,
    caller: &BusName,
    pattern: &Text,
) -> Result<Mail, NoMemory>
    ensures { IfOk result
        (λ mail. mail
        ≡ tells.registered (caller.now, pattern.now) ∷ replies caller.now (envelope_at m.now) (returns [])) }
{
    let mut mail = Mail::new(alloc);
    mail.push(told::registered(alloc, caller, pattern)?)?;
    told::returned(alloc, m, caller, Values::new(alloc), &mut mail)?;
    Ok(mail)
}

/// A pattern less is told, and then the caller is returned to.
pub fn deregistration(
    alloc: Global,
    m: &MessageRef,
    sender: &str,
    pattern: &str,
) -> Result<Mail, NoMemory>
    requires name { is_bus_name sender.now ≡ true }
    requires no_zero { HasNoZero pattern.now }
    requires counted { length pattern.now < 2 ^ 32 }
    ensures { IfOk result
        (λ mail. mail
        ≡ tells.deregistered (sender.now, chars pattern.now)
        ∷ replies sender.now (envelope_at m.now) (returns [])) }
{
    let caller = bus_name(alloc, sender)?;
    let text = Text::of(alloc, pattern)?;
    let mut mail = Mail::new(alloc);
    mail.push(told::deregistered(alloc, &caller, &text)?)?;
    told::returned(alloc, m, &caller, Values::new(alloc), &mut mail)?;
    Ok(mail)
}

/// The news of a child that came, where somebody asks for them.
fn tell_child(
    alloc: Global,
    pairs: &Pairs,
    index: usize,
    caller: &BusName,
    place: &Path,
    mail: &mut Mail,
) -> Result<(), NoMemory>
    ensures { OnOk result (mail.new ≡ mail.old ++ tells.child_added pairs.now index (caller.now, place.now)) }
{
    if !pairs.asks_for("add") {
        return Ok(());
    }
    mail.push(told::child_added(alloc, index, caller, place)?)?;
    Ok(())
}

/// The caller is returned to, gets its number, and its root is told.
pub fn embedding(
    alloc: Global,
    m: &MessageRef,
    caller: &BusName,
    place: &Path,
    embeds: u32,
) -> Result<Mail, NoMemory>
    ensures { IfOk result
        (λ mail. mail
        ≡ replies caller.now (envelope_at m.now) (returns (registry_root ∷ []))
        ++ tells.id_call (caller.now, place.now) embeds ∷ []) }
{
    let mut mail = Mail::new(alloc);
    told::returned(alloc, m, caller, told::root_body(alloc)?, &mut mail)?;
    mail.push(told::id_call(alloc, caller, place, embeds as usize)?)?;
    Ok(mail)
}

/// The same, with the news of the child.
#[tactic(auto, using(std::proofs::lemmas::List::append_assoc))]
pub fn adoption(
    alloc: Global,
    pairs: &Pairs,
    m: &MessageRef,
    caller: &BusName,
    place: &Path,
    embeds: u32,
    index: usize,
) -> Result<Mail, NoMemory>
    ensures { IfOk result
        (λ mail. mail
        ≡ replies caller.now (envelope_at m.now) (returns (registry_root ∷ []))
        ++ tells.id_call (caller.now, place.now) embeds
        ∷ tells.child_added pairs.now index (caller.now, place.now)) }
{
    let mut mail = embedding(alloc, m, caller, place, embeds)?;
    tell_child(alloc, pairs, index, caller, place, &mut mail)?;
    Ok(mail)
}

/// The news that this child goes from its place, where somebody asks for them.
#[tactic(auto, using(crate::proofs::Telling::told_one))]
fn tell_at(
    alloc: Global,
    asked: bool,
    place: usize,
    child: Option<&(BusName, Path)>,
    mail: &mut Mail,
) -> Result<(), NoMemory>
    ensures { OnOk result (mail.new ≡ mail.old ++ told_at asked place (option_copied child.entry)) }
{
    match child {
        None => Ok(()),
        Some(child) => {
            if !asked {
                return Ok(());
            }
            mail.push(told::child_removed(alloc, place, &child.0, &child.1)?)?;
            Ok(())
        }
    }
}

/// The news of a child that goes, if there is one, where somebody asks for them.
fn tell_removal(
    alloc: Global,
    asked: bool,
    children: &[(BusName, Path)],
    place: Option<usize>,
    mail: &mut Mail,
) -> Result<(), NoMemory>
    ensures { OnOk result (mail.new ≡ mail.old ++ removal_told asked children.now place) }
{
    match place {
        None => Ok(()),
        Some(i) => {
            tell_at(alloc, asked, i, children.get(i), mail)?;
            Ok(())
        }
    }
}

/// The child that goes is told, and then the caller is returned to.
#[tactic(auto, using(crate::proofs::Telling::removal))]
pub fn release(
    alloc: Global,
    pairs: &Pairs,
    children: &Children,
    place: Option<usize>,
    m: &MessageRef,
    sender: &str,
) -> Result<Mail, NoMemory>
    requires { is_bus_name sender.now ≡ true }
    ensures { IfOk result
        (λ mail. mail
        ≡ news_of_removal pairs.now children.now place ++ replies sender.now (envelope_at m.now) (returns [])) }
{
    let caller = bus_name(alloc, sender)?;
    let asked = pairs.asks_for("remove");
    let mut mail = Mail::new(alloc);
    tell_removal(alloc, asked, children.as_slice(), place, &mut mail)?;
    told::returned(alloc, m, &caller, Values::new(alloc), &mut mail)?;
    Ok(mail)
}

/// Whether the pair is the listener's.
fn is_of(pair: &(BusName, Text), name: &str) -> bool
    ensures { result ≡ state.is_of name.now pair.now }
{
    pair.0.as_str() == name
}

/// Whether a pair of another listener asks for news of children that go.
fn others_ask(pairs: &[(BusName, Text)], name: &str) -> bool
    ensures { result ≡ is_asked_for (pairs_without pairs.now name.now) (codes "remove") }
{
    pairs.iter().filter(|pair| !is_of(pair, name)).any(|pair| covers(
        pair.1.as_str(),
        "children-changed",
        "remove",
    ))
}

/// The pair is told where it is the listener's.
fn tell_pair(
    alloc: Global,
    pair: &(BusName, Text),
    name: &str,
    mail: &mut Mail,
) -> Result<(), NoMemory>
    ensures { OnOk result (mail.new ≡ mail.old ++ told_pair name.now pair.now) }
{
    if !is_of(pair, name) {
        return Ok(());
    }
    mail.push(told::deregistered(alloc, &pair.0, &pair.1)?)?;
    Ok(())
}

/// Each pair of a listener that left is told.
fn deregistrations(alloc: Global, pairs: &[(BusName, Text)], name: &str) -> Result<Mail, NoMemory>
    ensures { IfOk result (λ mail. mail ≡ map tells.deregistered (pairs_of pairs.now name.now)) }
{
    let mut mail = Mail::new(alloc);
    for pair in pairs {
        tell_pair(alloc, pair, name, &mut mail)?;
    }
    Ok(mail)
}

/// The pairs of a connection that left are told, and then its child, to those who are still there.
#[tactic(auto, using(crate::proofs::Telling::removal))]
pub fn farewell(
    alloc: Global,
    pairs: &Pairs,
    children: &Children,
    name: &str,
    place: Option<usize>,
) -> Result<Mail, NoMemory>
    ensures { IfOk result
        (λ mail. mail
        ≡ map tells.deregistered (pairs_of pairs.now name.now)
        ++ news_of_removal (pairs_without pairs.now name.now) children.now place) }
{
    let asked = others_ask(pairs.as_slice(), name);
    let mut mail = deregistrations(alloc, pairs.as_slice(), name)?;
    tell_removal(alloc, asked, children.as_slice(), place, &mut mail)?;
    Ok(mail)
}
