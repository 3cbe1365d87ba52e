//! What the registry takes at its start, of which nothing is told.

ghost use Rattle.std.specs.Prelude.{◌<◌, ◌≤◌, length, IfOk, IfSome, OnOk};
ghost use Rattle.atspi_world_parties.specs.Hearing.{HearsAt};
ghost use Rattle.atspi_world_parties.specs.inner.Hearing.{HearsFront, HearsOff};

use atspi_protocol::ends::EndFault;
use atspi_registry::Registry;
use atspi_world_links::{Link, first_message};

/// The registry takes the message that the bytes at it begin with, if they begin with one; answers how many bytes it
/// had. It says nothing to one of its start, and nothing of that is told.
fn hear_front(registry: &mut Registry, at_end: &Link) -> Result<Option<usize>, EndFault>
    ensures within { IfOk result (λ len. IfSome len (λ n. n ≤ length at_end.now)) }
    ensures hears { IfOk result (λ len. HearsFront at_end.now registry.old registry.new len) }
{
    match first_message(at_end.as_slice()) {
        None => Ok(None),
        Some(first) => match registry.take(&first.message) {
            Ok(()) => Ok(Some(first.len)),
            Err(fault) => Err(fault),
        },
    }
}

/// The same; what it took is gone.
fn hear(registry: &mut Registry, at_end: &mut Link) -> Result<(), EndFault>
    ensures hears { OnOk result (HearsOff at_end.old at_end.new registry.old registry.new) }
{
    if let Some(len) = hear_front(registry, at_end)? {
        at_end.pop(len);
    }
    Ok(())
}

/// The same at the end of a connection, if it is there.
pub fn hear_at(registry: &mut Registry, at_end: &mut [Link], conn: u32) -> Result<(), EndFault>
    ensures hears { OnOk result (HearsAt at_end.old at_end.new conn registry.old registry.new) }
{
    let place = conn as usize;
    if place >= at_end.len() {
        return Ok(());
    }
    hear(registry, &mut at_end[place])
}
