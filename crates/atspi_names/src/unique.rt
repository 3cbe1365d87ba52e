//! The unique names and the bus's own name as texts.

ghost use Rattle.std.specs.Prelude.{◌≡◌, IfOk};
ghost use Rattle.atspi_names.specs.Owners as owners;

use atspi_base::NoMemory;
use atspi_base::valid_names::{BusName, NameFault};
use std::alloc::Global;

/// The unique name `:1.n`.
pub fn unique_name(alloc: Global, n: u32) -> Result<BusName, NoMemory>
    ensures { IfOk result (λ name. name ≡ owners.unique_name n) }
{
    let text = format!(in alloc; ":1.{n}")?;
    match BusName::read(alloc, text.as_bytes()) {
        Ok(name) => Ok(name),
        Err(NameFault::NoMemory) => Err(NoMemory),
        Err(NameFault::Form) => unreachable!(),
    }
}

/// The name of the bus itself, `org.freedesktop.DBus`.
pub fn own_name(alloc: Global) -> Result<BusName, NoMemory>
    ensures { IfOk result (λ name. name ≡ owners.own_name) }
{
    match BusName::read(alloc, b"org.freedesktop.DBus") {
        Ok(name) => Ok(name),
        Err(NameFault::NoMemory) => Err(NoMemory),
        Err(NameFault::Form) => unreachable!(),
    }
}
