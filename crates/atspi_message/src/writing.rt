//! Writing messages.

ghost use Rattle.std.specs.Prelude.{◌≡◌, ◌≤◌, ◌++◌, length, take, OnOk, OnErr, IsErrOf};
ghost use Rattle.atspi_types.specs.Data.{items_of, AreWellTyped};
ghost use Rattle.atspi_types.specs.DataView.{all_data};
ghost use Rattle.atspi_marshal.specs.Writing.{Writes};
ghost use Rattle.atspi_message.specs.Bytes.{FitsWire, IsMessage, rising_fields, written};
ghost use Rattle.atspi_message.specs.Envelope.{envelope_of};
ghost use Rattle.atspi_message.specs.Rules.{MeetsRules, HasNames};
ghost use Rattle.atspi_message.specs.inner.Writing.{start_bytes, fields_bytes, HeaderFits, HasWidths};

mod fields;

use crate::front::order_byte;
use crate::message::Message;
use atspi_base::{Bytes, NoMemory};
use atspi_marshal::{
    WriteFault, append_u32, begin_array, end_array, put_padding, put_values, set_u32,
};
use fields::put_fields;

/// The levels of containers in one another, at most.
const LEVELS: u8 = 64;

/// The first twelve bytes of a header. The length of the body is 0 so far.
fn put_start(message: &Message, out: &mut Bytes) -> Result<(), NoMemory>
    ensures ok { OnOk result (out.new ≡ out.old ++ start_bytes (envelope_of message.now)) }
    ensures front { take (length out.old) out.new ≡ out.old }
    ensures widths { HasWidths (envelope_of message.now) }
{
    let (kind, flags, serial) = (message.kind, message.flags, message.serial);
    let order = message.order;
    out.extend(&[order_byte(order), kind, flags, 1, 0, 0, 0, 0])?;
    append_u32(order, serial, out)
}

/// A header. The length of the body is 0 so far. The place behind the fields.
fn put_header(message: &Message, out: &mut Bytes) -> Result<usize, WriteFault>
    requires { AreWellTyped (items_of (all_data message.now.body)) }
    ensures writes { let e = envelope_of message.now in
        Writes (HeaderFits e) (start_bytes e ++ fields_bytes e) 0 out.old out.new result }
    ensures front { take (length out.old) out.new ≡ out.old }
    ensures named { OnOk result (HasNames (envelope_of message.now)) }
    ensures widths { HasWidths (envelope_of message.now) }
{
    put_start(message, out)?;
    let index = out.len();
    let first = begin_array(8, 12, out)?;
    let next = put_fields(message, first, out)?;
    end_array(message.order, index, next - first, out)?;
    Ok(next)
}

/// A message. After a refusal a front of it was appended.
fn put_message(message: &Message, out: &mut Bytes) -> Result<(), WriteFault>
    requires { MeetsRules (envelope_of message.now) }
    ensures ok { OnOk result (out.new ≡ out.old ++ written (envelope_of message.now)) }
    ensures fits { OnOk result (FitsWire (envelope_of message.now) (rising_fields (envelope_of message.now))) }
    ensures named { OnOk result (HasNames (envelope_of message.now)) }
    ensures big { IsErrOf result WriteFault.Big
        → ¬ FitsWire (envelope_of message.now) (rising_fields (envelope_of message.now)) }
    ensures front { take (length out.old) out.new ≡ out.old }
{
    let end = put_header(message, out)?;
    let index = out.len() - end + 4;
    let place = put_padding(8, end, 0, out)?;
    let next = put_values(message.order, LEVELS, place, &message.body, out)?;
    set_u32(message.order, index, (next - place) as u32, out);
    Ok(())
}

impl Message {
    /// Appends the written form of the message (D-Bus Specification, "Message Format"): the fields in rising order of
    /// their codes, each only where it is there, SIGNATURE where the body is not empty, and UNIX_FDS never. `Big` where
    /// the fields or an array pass 67,108,864 bytes, the message passes 134,217,728, containers stand more than 64 deep
    /// in one another, or the types of the body or of a variant pass the limits of a signature. After a refusal `out`
    /// is as before.
    pub fn write(&self, out: &mut Bytes) -> Result<(), WriteFault>
        requires meets { MeetsRules (envelope_of self.now) }
        ensures ok { OnOk result (out.new ≡ out.old ++ written (envelope_of self.now)) }
        ensures fits { OnOk result (FitsWire (envelope_of self.now) (rising_fields (envelope_of self.now))) }
        // What was appended is a message, which is read as this one.
        ensures message { OnOk result (IsMessage (envelope_of self.now) (written (envelope_of self.now))) }
        ensures big { IsErrOf result WriteFault.Big
            → ¬ FitsWire (envelope_of self.now) (rising_fields (envelope_of self.now)) }
        ensures err { OnErr result (out.new ≡ out.old) }
    {
        let len = out.len();
        match put_message(self, out) {
            Ok(()) => Ok(()),
            Err(fault) => {
                out.truncate(len);
                Err(fault)
            }
        }
    }
}
