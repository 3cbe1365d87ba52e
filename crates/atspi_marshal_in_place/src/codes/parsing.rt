//! Whether bytes are a signature, and their first fault if they are none.

ghost use Rattle.std.specs.Prelude.{◌<◌, length};
ghost use Rattle.atspi_types.specs.SignatureReading.{signature_in};
ghost use Rattle.atspi_marshal_in_place.specs.codes.inner.Marks.{LeadsTo, Ends, Checks};

use crate::codes::marks::{Mark, Open, refuses_end};
use atspi_types::Fault;

/// The innermost container that stands open behind the bytes, or the first fault in them.
fn walk(bytes: &[u8]) -> Result<Option<Mark>, Fault>
    requires { length bytes.now < 256 }
    ensures { LeadsTo result bytes.now }
{
    let mut open = Open::new();
    for i in 0..bytes.len() {
        open.step(i as u32, bytes[i])?;
    }
    Ok(open.innermost())
}

/// Why bytes end as they do, if so many are too many or the end is refused behind the first 255.
fn finish(innermost: Option<Mark>, len: usize) -> Result<(), Fault>
    ensures { Ends result innermost len }
{
    if len > 255 {
        return Err(Fault {
            place: 255,
            reason: 1,
        });
    }
    match refuses_end(innermost) {
        Some(reason) => {
            let place = len as u32;
            Err(Fault { place, reason })
        }
        None => Ok(()),
    }
}

/// The first fault of the bytes as a signature, if they are none.
pub fn check(bytes: &[u8]) -> Result<(), Fault>
    ensures { Checks result (signature_in bytes.now) }
{
    let innermost = walk(&bytes[..bytes.len().min(255)])?;
    finish(innermost, bytes.len())
}
