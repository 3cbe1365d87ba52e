//! The text of a message.

ghost use Rattle.std.specs.Prelude.{◌≡◌, ◌++◌, OnOk, OnErr, length, take};
ghost use Rattle.std.specs.List.{flat_map};
ghost use Rattle.atspi_types.specs.Data.{items_of};
ghost use Rattle.atspi_types.specs.DataView.{all_data};
ghost use Rattle.atspi_message.specs.Envelope.{envelope_of};
ghost use Rattle.atspi_script.specs.Spaced.{behind_space};
ghost use Rattle.atspi_script.specs.MessageText.{message_text as text_of_message, body_words};

use crate::messages::header::put_header;
use crate::messages::values::put_values;
use atspi_base::{Bytes, NoMemory};
use atspi_message::Message;
use atspi_types::Values;

/// Appends the text of a message: its type, byte order, flags and serial, the fields that it has in the order of their
/// codes, and the signature and the values of a body that is not empty; one space stands between any two of these.
/// After want of memory nothing was appended.
pub fn message_text(message: &Message, out: &mut Bytes) -> Result<(), NoMemory>
    ensures ok { OnOk result (out.new ≡ out.old ++ text_of_message (envelope_of message.now)) }
    ensures err { OnErr result (out.new ≡ out.old) }
{
    let len = out.len();
    let written = put_message(message, out);
    if written.is_err() {
        out.truncate(len);
    }
    written
}

/// Appends the text of a message. After want of memory a front of it was appended.
fn put_message(message: &Message, out: &mut Bytes) -> Result<(), NoMemory>
    ensures ok { OnOk result (out.new ≡ out.old ++ text_of_message (envelope_of message.now)) }
    ensures front { take (length out.old) out.new ≡ out.old }
{
    put_header(message, out)?;
    put_body(&message.body, out)?;
    Ok(())
}

/// Appends the signature and the values of a body, each behind a space; nothing of an empty one.
fn put_body(body: &Values, out: &mut Bytes) -> Result<(), NoMemory>
    ensures ok { OnOk result (out.new ≡ out.old ++ flat_map behind_space (body_words (items_of (all_data body.now)))) }
    ensures front { take (length out.old) out.new ≡ out.old }
{
    if body.len() == 0 {
        return Ok(());
    }
    out.extend(b" signature=")?;
    body.write_types(out)?;
    out.extend(b" [")?;
    put_values(body, out)?;
    out.push(b']')?;
    Ok(())
}
