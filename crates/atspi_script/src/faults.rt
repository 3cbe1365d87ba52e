//! The line that tells a message at fault.

ghost use Rattle.std.specs.Prelude.{◌≡◌, ◌++◌, OnOk};
ghost use Rattle.atspi_script.specs.FaultText.{fault_line};

use atspi_base::{Bytes, NoMemory, put_decimal};

/// Appends `fault START PLACE REASON` and a line feed: so many bytes stand before the message, and it is at fault at
/// this place, counted in bytes from its start, for this reason (the reasons 1 to 36 of the profile). After want of
/// memory a front of the line may have been appended.
pub fn put_fault(start: u64, place: u64, reason: u8, out: &mut Bytes) -> Result<(), NoMemory>
    ensures { OnOk result (out.new ≡ out.old ++ fault_line start place reason) }
{
    out.extend(b"fault ")?;
    put_decimal(start, out)?;
    out.push(b' ')?;
    put_decimal(place, out)?;
    out.push(b' ')?;
    put_decimal(reason as u64, out)?;
    out.push(b'\n')
}
