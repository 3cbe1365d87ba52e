//! The text of a message.

ghost use Rattle.std.specs.Prelude.{◌≡◌, ◌++◌, OnOk, OnErr, length, take};
ghost use Rattle.std.specs.List.{flat_map};
ghost use Rattle.atspi_types.specs.Data.{items_of};
ghost use Rattle.atspi_marshal_in_place.specs.Items.{fields_data};
ghost use Rattle.atspi_message_in_place.specs.View.{envelope_at};
ghost use Rattle.atspi_script.specs.Spaced.{behind_space};
ghost use Rattle.atspi_script.specs.MessageText.{message_text as text_of_message, body_words};

use crate::header::put_header;
use crate::values::put_fields;
use atspi_base::{Bytes, NoMemory};
use atspi_marshal_in_place::Fields;
use atspi_message_in_place::MessageRef;

/// Appends the text of a message that lies in bytes: its type, byte order, flags and serial, the fields that it has in
/// the order of their codes, and the signature and the values of a body that is not empty; one space stands between any
/// two of these. After want of memory nothing was appended.
pub fn message_text(message: &MessageRef, out: &mut Bytes) -> Result<(), NoMemory>
    ensures ok { OnOk result (out.new ≡ out.old ++ text_of_message (envelope_at message.now)) }
    ensures err { OnErr result (out.new ≡ out.old) }
{
    let len = out.len();
    let written = put_message(message, out);
    if written.is_err() {
        out.truncate(len);
    }
    written
}

/// Appends the text of a message. After want of memory a front of it was appended.
#[inline(always)]
fn put_message(message: &MessageRef, out: &mut Bytes) -> Result<(), NoMemory>
    ensures ok { OnOk result (out.new ≡ out.old ++ text_of_message (envelope_at message.now)) }
    ensures front { take (length out.old) out.new ≡ out.old }
{
    put_header(message, out)?;
    put_body(message.body, out)?;
    Ok(())
}

/// Appends the signature and the values of a body, each behind a space; nothing of an empty one.
#[inline(always)]
fn put_body(body: Fields<'_>, out: &mut Bytes) -> Result<(), NoMemory>
    ensures ok { OnOk result
        (out.new ≡ out.old ++ flat_map behind_space (body_words (items_of (fields_data body.entry)))) }
    ensures front { take (length out.old) out.new ≡ out.old }
{
    let types = body.types();
    if types.is_empty() {
        return Ok(());
    }
    out.extend(b" signature=")?;
    out.extend(types.codes())?;
    out.extend(b" [")?;
    put_fields(body, out)?;
    out.push(b']')?;
    Ok(())
}
