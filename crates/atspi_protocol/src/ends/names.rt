//! Names and paths that are known to be of their rule, as owned ones. Memory alone can be wanting.

ghost use Rattle.std.specs.Prelude.{◌≡◌, true, IfOk};
ghost use Rattle.atspi_base.specs.valid_names.Names.{is_path, is_interface, is_member, is_bus_name};

use atspi_base::NoMemory;
use atspi_base::valid_names::{BusName, Interface, Member, NameFault, Path};
use std::alloc::Global;

/// A bus name.
pub fn bus_name(alloc: Global, text: &str) -> Result<BusName, NoMemory>
    requires { is_bus_name text.now ≡ true }
    ensures { IfOk result (λ name. name ≡ text.now) }
{
    match BusName::read(alloc, text.as_bytes()) {
        Ok(name) => Ok(name),
        Err(NameFault::NoMemory) => Err(NoMemory),
        Err(NameFault::Form) => unreachable!(),
    }
}

/// The path of an object.
pub fn path(alloc: Global, text: &str) -> Result<Path, NoMemory>
    requires { is_path text.now ≡ true }
    ensures { IfOk result (λ path. path ≡ text.now) }
{
    match Path::read(alloc, text.as_bytes()) {
        Ok(path) => Ok(path),
        Err(NameFault::NoMemory) => Err(NoMemory),
        Err(NameFault::Form) => unreachable!(),
    }
}

/// The name of an interface or of an error.
pub fn interface(alloc: Global, text: &str) -> Result<Interface, NoMemory>
    requires { is_interface text.now ≡ true }
    ensures { IfOk result (λ interface. interface ≡ text.now) }
{
    match Interface::read(alloc, text.as_bytes()) {
        Ok(interface) => Ok(interface),
        Err(NameFault::NoMemory) => Err(NoMemory),
        Err(NameFault::Form) => unreachable!(),
    }
}

/// The name of a member.
pub fn member(alloc: Global, text: &str) -> Result<Member, NoMemory>
    requires { is_member text.now ≡ true }
    ensures { IfOk result (λ member. member ≡ text.now) }
{
    match Member::read(alloc, text.as_bytes()) {
        Ok(member) => Ok(member),
        Err(NameFault::NoMemory) => Err(NoMemory),
        Err(NameFault::Form) => unreachable!(),
    }
}
