//! Names that are written in the code.

ghost use Rattle.std.specs.Prelude.{◌≡◌, true, bytes_eq, IfOk};
ghost use Rattle.atspi_names.specs.Owners.{own_name};
ghost use Rattle.atspi_base.specs.valid_names.Names as names;

use atspi_base::NoMemory;
use atspi_base::valid_names::{BusName, Interface, Member, NameFault, Path};
use std::alloc::Global;

/// The path that the text is.
pub fn path(alloc: Global, text: &str) -> Result<Path, NoMemory>
    requires { names.is_path text.now ≡ true }
    ensures { IfOk result (λ name. name ≡ text.now) }
{
    match Path::read(alloc, text.as_bytes()) {
        Ok(name) => Ok(name),
        Err(NameFault::NoMemory) => Err(NoMemory),
        Err(NameFault::Form) => unreachable!(),
    }
}

/// The interface or the error that the text names.
pub fn interface(alloc: Global, text: &str) -> Result<Interface, NoMemory>
    requires { names.is_interface text.now ≡ true }
    ensures { IfOk result (λ name. name ≡ text.now) }
{
    match Interface::read(alloc, text.as_bytes()) {
        Ok(name) => Ok(name),
        Err(NameFault::NoMemory) => Err(NoMemory),
        Err(NameFault::Form) => unreachable!(),
    }
}

/// The member that the text names.
pub fn member(alloc: Global, text: &str) -> Result<Member, NoMemory>
    requires { names.is_member text.now ≡ true }
    ensures { IfOk result (λ name. name ≡ text.now) }
{
    match Member::read(alloc, text.as_bytes()) {
        Ok(name) => Ok(name),
        Err(NameFault::NoMemory) => Err(NoMemory),
        Err(NameFault::Form) => unreachable!(),
    }
}

/// The bus name that the text is.
pub fn bus_name(alloc: Global, text: &str) -> Result<BusName, NoMemory>
    requires { names.is_bus_name text.now ≡ true }
    ensures { IfOk result (λ name. name ≡ text.now) }
{
    match BusName::read(alloc, text.as_bytes()) {
        Ok(name) => Ok(name),
        Err(NameFault::NoMemory) => Err(NoMemory),
        Err(NameFault::Form) => unreachable!(),
    }
}

/// Whether the text is the name of the bus itself.
pub fn is_own(text: &str) -> bool
    ensures { result ≡ bytes_eq text.now own_name }
{
    text.as_bytes() == b"org.freedesktop.DBus".as_slice()
}
