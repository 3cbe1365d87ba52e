//! All pairs exchanged for others.

ghost use Rattle.std.specs.Prelude.{◌≡◌, ◌++◌, IfOk, OnOk, filter, map, not};
ghost use Rattle.atspi_protocol.specs.exporting.Exporter.{hears, deaf};
ghost use Rattle.atspi_protocol.specs.exporting.Hearing as hearing;
ghost use Rattle.atspi_protocol.specs.exporting.Hearing.{is_heard};
ghost use Rattle.atspi_app_known.specs.happenings.View.{happened};
ghost use Rattle.atspi_app_known.specs.hearing.Lent.{lent_pair, lent_pairs};

use crate::happenings::Happenings;
use crate::heard::heard::Heard;
use crate::heard::set::{PairSet, set_of};
use crate::hearing::PairRef;
use atspi_base::valid_names::BusName;
use atspi_base::{NoMemory, Text};
use atspi_protocol::ends::bus_name;
use std::alloc::Global;

/// The pairs that count after an exchange, and what is told of it.
#[derive(Drop)]
pub struct Exchange {
    pub heard: Heard,
    pub told: Happenings,
}

/// The pairs that an exchange leaves, those that fall away, and those that it brings.
#[derive(Drop)]
struct Parts<'a> {
    kept: Vec<PairRef<'a>>,
    fallen: Vec<PairRef<'a>>,
    added: Vec<PairRef<'a>>,
}

/// A pair, lent.
fn lent(pair: &(BusName, Text)) -> PairRef<'_>
    ensures { lent_pair result ≡ pair.now }
{
    PairRef {
        name: pair.0.as_str(),
        pattern: pair.1.as_str(),
    }
}

/// Pairs, lent.
fn lent_all<'a>(alloc: Global, pairs: &'a [(BusName, Text)]) -> Result<Vec<PairRef<'a>>, NoMemory>
    ensures { IfOk result (λ all. lent_pairs all.items ≡ pairs.now) }
{
    let mut all = Vec::with_capacity(alloc, pairs.len())?;
    for pair in pairs {
        all.push(lent(pair))?;
    }
    Ok(all)
}

/// A pair, owned.
fn owned(alloc: Global, pair: PairRef<'_>) -> Result<(BusName, Text), NoMemory>
    ensures { IfOk result (λ own. own ≡ lent_pair pair.entry) }
{
    let name = bus_name(alloc, pair.name)?;
    let pattern = Text::of(alloc, pair.pattern)?;
    Ok((name, pattern))
}

/// Those of some pairs that a set has.
fn those<'a>(
    alloc: Global,
    pairs: &[PairRef<'a>],
    set: &PairSet<'_>,
) -> Result<Vec<PairRef<'a>>, NoMemory>
    ensures { IfOk result (λ some. lent_pairs some.items ≡ filter (is_heard set.now) (lent_pairs pairs.now)) }
{
    let mut some = Vec::new(alloc);
    for pair in pairs {
        if set.has(*pair) {
            some.push(*pair)?;
        }
    }
    Ok(some)
}

/// Those that it has not.
fn others<'a>(
    alloc: Global,
    pairs: &[PairRef<'a>],
    set: &PairSet<'_>,
) -> Result<Vec<PairRef<'a>>, NoMemory>
    ensures { IfOk result
        (λ some. lent_pairs some.items ≡ filter (λ p. not (is_heard set.now p)) (lent_pairs pairs.now)) }
{
    let mut some = Vec::new(alloc);
    for pair in pairs {
        if !set.has(*pair) {
            some.push(*pair)?;
        }
    }
    Ok(some)
}

/// What is left of some pairs where those of a set come in their place, what falls away, and what comes that was not
/// before.
fn parts_of<'a>(
    alloc: Global,
    pairs: &[PairRef<'a>],
    now: &PairSet<'a>,
    before: &PairSet<'_>,
) -> Result<Parts<'a>, NoMemory>
    ensures kept { IfOk result (λ x. lent_pairs x.kept.items ≡ filter (is_heard now.now) (lent_pairs pairs.now)) }
    ensures fallen { IfOk result
        (λ x. lent_pairs x.fallen.items ≡ filter (λ p. not (is_heard now.now p)) (lent_pairs pairs.now)) }
    ensures added { IfOk result (λ x. lent_pairs x.added.items ≡ filter (λ p. not (is_heard before.now p)) now.now) }
{
    let kept = those(alloc, pairs, now)?;
    let fallen = others(alloc, pairs, now)?;
    let added = others(alloc, now.as_slice(), before)?;
    Ok(Parts {
        kept,
        fallen,
        added,
    })
}

/// What an exchange of some pairs for others leaves, takes and brings. Each pair is looked up once, so long lists cost
/// no square.
fn divided<'a>(
    alloc: Global,
    pairs: &[PairRef<'a>],
    listed: &[PairRef<'a>],
) -> Result<Parts<'a>, NoMemory>
    ensures kept { IfOk result
        (λ x. lent_pairs x.kept.items ≡ filter (is_heard (lent_pairs listed.now)) (lent_pairs pairs.now)) }
    ensures fallen { IfOk result
        (λ x. lent_pairs x.fallen.items
        ≡ filter (λ p. not (is_heard (lent_pairs listed.now) p)) (lent_pairs pairs.now)) }
    ensures added { IfOk result
        (λ x. lent_pairs x.added.items
        ≡ filter (λ p. not (is_heard (lent_pairs pairs.now) p)) (hearing.firsts (lent_pairs listed.now))) }
{
    let now = set_of(alloc, listed)?;
    let before = set_of(alloc, pairs)?;
    parts_of(alloc, pairs, &now, &before)
}

/// More pairs behind others, owned.
fn put_owned(
    alloc: Global,
    all: &mut Vec<(BusName, Text)>,
    pairs: &[PairRef<'_>],
) -> Result<(), NoMemory>
    ensures { OnOk result (all.new.items ≡ all.old.items ++ lent_pairs pairs.now) }
{
    for pair in pairs {
        all.push(owned(alloc, *pair)?)?;
    }
    Ok(())
}

/// It is told that pairs no longer count.
fn tell_fallen(alloc: Global, told: &mut Happenings, pairs: &[PairRef<'_>]) -> Result<(), NoMemory>
    ensures { OnOk result (happened told.new ≡ happened told.old ++ map (λ p. deaf p.0 p.1) (lent_pairs pairs.now)) }
{
    for pair in pairs {
        let (name, pattern) = owned(alloc, *pair)?;
        told.push_deaf(name, pattern)?;
    }
    Ok(())
}

/// It is told that pairs count.
fn tell_added(alloc: Global, told: &mut Happenings, pairs: &[PairRef<'_>]) -> Result<(), NoMemory>
    ensures { OnOk result (happened told.new ≡ happened told.old ++ map (λ p. hears p.0 p.1) (lent_pairs pairs.now)) }
{
    for pair in pairs {
        let (name, pattern) = owned(alloc, *pair)?;
        told.push_hears(name, pattern)?;
    }
    Ok(())
}

/// The pairs that are left, and behind them those that are new.
fn list(alloc: Global, parts: &Parts<'_>) -> Result<Heard, NoMemory>
    ensures { IfOk result (λ heard. heard ≡ lent_pairs parts.now.kept.items ++ lent_pairs parts.now.added.items) }
{
    let mut all = Vec::new(alloc);
    put_owned(alloc, &mut all, &parts.kept)?;
    put_owned(alloc, &mut all, &parts.added)?;
    Ok(Heard::from_vec(all))
}

/// What is told: first the pairs that fall away, and then the new ones.
fn news(alloc: Global, parts: &Parts<'_>) -> Result<Happenings, NoMemory>
    ensures { IfOk result
        (λ told. happened told
        ≡ map (λ p. deaf p.0 p.1) (lent_pairs parts.now.fallen.items)
        ++ map (λ p. hears p.0 p.1) (lent_pairs parts.now.added.items)) }
{
    let mut told = Happenings::new(alloc);
    tell_fallen(alloc, &mut told, &parts.fallen)?;
    tell_added(alloc, &mut told, &parts.added)?;
    Ok(told)
}

/// Other pairs in place of those that count: those fall away that are not among them, and behind those that stay the
/// new ones stand, each once. It takes time by the lengths of the two lists, and changes nothing.
pub fn exchanged(alloc: Global, heard: &Heard, listed: &[PairRef<'_>]) -> Result<Exchange, NoMemory>
    ensures heard { IfOk result (λ x. x.heard ≡ (hearing.exchanged heard.now (lent_pairs listed.now)).heard) }
    ensures told { IfOk result (λ x. happened x.told ≡ (hearing.exchanged heard.now (lent_pairs listed.now)).told) }
{
    let pairs = lent_all(alloc, heard.as_slice())?;
    let parts = divided(alloc, &pairs, listed)?;
    let heard = list(alloc, &parts)?;
    let told = news(alloc, &parts)?;
    Ok(Exchange { heard, told })
}
