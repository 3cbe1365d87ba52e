//! What is told where a name changes hands.

ghost use Rattle.std.specs.Prelude.{◌≡◌, [], ◌∷◌, ◌++◌, map, take, length, IfOk, OnOk, OnErr, option_copied};
ghost use Rattle.std.specs.Option.{option_and_then};
ghost use Rattle.atspi_message.specs.Envelope.{envelope_of};
ghost use Rattle.atspi_names.specs.Queue as queues;
ghost use Rattle.atspi_match.specs.routing.BusState.{text_or_empty, name_or_empty};
ghost use Rattle.atspi_match.specs.routing.OwnMessages as own;

use crate::said::{name_acquired, name_lost, owner_changed};
use atspi_base::NoMemory;
use atspi_base::valid_names::BusName;
use atspi_message::Message;
use atspi_names::{Names, OwnerChange};
use std::alloc::Global;

/// The unique name of an owner, if there is one.
fn unique_of<'a>(names: &'a Names, owner: Option<u32>) -> Option<&'a BusName>
    ensures { text_or_empty (option_copied result) ≡ name_or_empty names.now owner }
{
    match owner {
        Some(conn) => names.unique_name(conn),
        None => None,
    }
}

/// The owner that lost the name is told.
fn tell_lost(
    alloc: Global,
    names: &Names,
    name: &BusName,
    owner: Option<u32>,
    told: &mut Vec<Message>,
) -> Result<(), NoMemory>
    ensures { OnOk result
        (map envelope_of told.new.items ≡ map envelope_of told.old.items ++ own.name_lost names.now name.now owner) }
{
    if let Some(conn) = owner {
        told.push(name_lost(alloc, names.unique_name(conn), name)?)?;
    }
    Ok(())
}

/// The owner that the name has now is told.
fn tell_acquired(
    alloc: Global,
    names: &Names,
    name: &BusName,
    owner: Option<u32>,
    told: &mut Vec<Message>,
) -> Result<(), NoMemory>
    ensures { OnOk result
        (map envelope_of told.new.items
        ≡ map envelope_of told.old.items ++ own.name_acquired names.now name.now owner) }
{
    if let Some(conn) = owner {
        told.push(name_acquired(alloc, names.unique_name(conn), name)?)?;
    }
    Ok(())
}

/// What is told where a name changes hands: who lost it, who has it now, and all that ask for it. Nothing is told where
/// it is still the same one's.
fn news_of(
    alloc: Global,
    names: &Names,
    name: &BusName,
    change: OwnerChange,
) -> Result<Vec<Message>, NoMemory>
    ensures { IfOk result
        (λ news. map envelope_of news.items ≡ own.told_of_change names.now name.now change.before change.after) }
{
    let mut news = Vec::new(alloc);
    if change.before == change.after {
        return Ok(news);
    }
    tell_lost(alloc, names, name, change.before, &mut news)?;
    tell_acquired(alloc, names, name, change.after, &mut news)?;
    let before = unique_of(names, change.before);
    let after = unique_of(names, change.after);
    news.push(owner_changed(alloc, name, before, after)?)?;
    Ok(news)
}

/// Tells that a name changes hands, behind what was told already. After want of memory nothing more is told.
pub(crate) fn tell_change(
    alloc: Global,
    names: &Names,
    name: &BusName,
    change: OwnerChange,
    told: &mut Vec<Message>,
) -> Result<(), NoMemory>
    ensures ok { OnOk result (map envelope_of told.new.items
        ≡ map envelope_of told.old.items ++ own.told_of_change names.now name.now change.before change.after) }
    ensures behind { OnOk result (take (length told.old.items) told.new.items ≡ told.old.items) }
    ensures err { OnErr result (told.new.items ≡ told.old.items) }
{
    let mut news = news_of(alloc, names, name, change)?;
    told.append(&mut news)?;
    Ok(())
}

/// What a request will change of a list.
pub fn request_change(queue: &[(u32, u32)], conn: u32, flags: u32) -> OwnerChange
    ensures { result ≡ queues.request_change queue.now conn flags }
{
    let Some((owner, owner_flags)) = queue.first().copied() else {
        return OwnerChange {
            answer: 1,
            before: None,
            after: Some(conn),
        };
    };
    let (answer, after) = if owner == conn {
        (4, conn)
    } else if owner_flags & 1 != 0 && flags & 2 != 0 {
        (1, conn)
    } else if flags & 4 != 0 {
        (3, owner)
    } else {
        (2, owner)
    };
    OwnerChange {
        answer,
        before: Some(owner),
        after: Some(after),
    }
}

/// Who will own a name that the connection leaves, by the list of the name.
pub fn next_owner(queue: &[(u32, u32)], conn: u32) -> Option<u32>
    ensures { result ≡ queues.owner_in (queues.without conn queue.now) }
{
    for (other, _) in queue {
        if *other != conn {
            return Some(*other);
        }
    }
    None
}

/// Whether the connection owns the name or waits for it.
fn stands_in(queue: &[(u32, u32)], conn: u32) -> bool
    ensures { result ≡ queues.stands conn queue.now }
{
    queue.iter().any(|entry| entry.0 == conn)
}

/// What a release will change of a list.
pub fn release_change(queue: &[(u32, u32)], conn: u32) -> OwnerChange
    ensures { result ≡ queues.release_change queue.now conn }
{
    let Some((owner, _)) = queue.first().copied() else {
        return OwnerChange {
            answer: 2,
            before: None,
            after: None,
        };
    };
    let before = Some(owner);
    let after = next_owner(queue, conn);
    if stands_in(queue, conn) {
        return OwnerChange {
            answer: 1,
            before,
            after,
        };
    }
    OwnerChange {
        answer: 3,
        before,
        after,
    }
}
