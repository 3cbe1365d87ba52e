//! The lines that are written.

ghost use Rattle.std.specs.Prelude.{◌≡◌, ◌∷◌, ◌++◌, OnOk};
ghost use Rattle.std.specs.List.{flat_map};
ghost use Rattle.std.specs.Fmt.{decimal};
ghost use Rattle.atspi_message.specs.Envelope.{envelope_of};
ghost use Rattle.atspi_run_hit.specs.Names.{refused_text};
ghost use Rattle.atspi_run_hit.specs.Told.{cell_line, follow_line, message_line, node_word, target_words};

use crate::naming::{Refused, refused_name};
use atspi_base::{Bytes, NoMemory, put_decimal};
use atspi_message::Message;
use atspi_trace_texts::messages::message_text;

/// Appends the text of a message, as a line.
pub(crate) fn put_message(message: &Message, out: &mut Bytes) -> Result<(), NoMemory>
    ensures { OnOk result (out.new ≡ out.old ++ message_line (envelope_of message.now)) }
{
    message_text(message, out)?;
    out.extend(b"\n")
}

/// Appends a node as a word, or that there is none.
fn put_node(node: Option<u32>, out: &mut Bytes) -> Result<(), NoMemory>
    ensures { OnOk result (out.new ≡ out.old ++ node_word node) }
{
    match node {
        Some(node) => put_decimal(u64::from(node), out),
        None => out.extend(b"none"),
    }
}

/// Appends the line of a cell, or of none.
pub(crate) fn put_cell(node: Option<u32>, out: &mut Bytes) -> Result<(), NoMemory>
    ensures { OnOk result (out.new ≡ out.old ++ cell_line node) }
{
    out.extend(b"cell ")?;
    put_node(node, out)?;
    out.extend(b"\n")
}

/// Appends numbers, each behind a space.
fn put_numbers(numbers: &[u32], out: &mut Bytes) -> Result<(), NoMemory>
    ensures { OnOk result (out.new ≡ out.old ++ flat_map (λ n. 32 ∷ decimal n) numbers.now) }
{
    for number in numbers {
        out.extend(b" ")?;
        put_decimal(u64::from(*number), out)?;
    }
    Ok(())
}

/// Appends the targets of a relation, or that there are none.
fn put_words(targets: &[u32], out: &mut Bytes) -> Result<(), NoMemory>
    ensures { OnOk result (out.new ≡ out.old ++ target_words targets.now) }
{
    if targets.is_empty() {
        return out.extend(b" none");
    }
    put_numbers(targets, out)
}

/// Appends the line of the targets of a relation, or of none.
pub(crate) fn put_targets(targets: &[u32], out: &mut Bytes) -> Result<(), NoMemory>
    ensures { OnOk result (out.new ≡ out.old ++ follow_line targets.now) }
{
    out.extend(b"follow")?;
    put_words(targets, out)?;
    out.extend(b"\n")
}

/// Appends the line that tells of a refusal. Lines are counted from 1.
pub(crate) fn put_refused(number: u64, why: Refused, out: &mut Bytes) -> Result<(), NoMemory>
    ensures { OnOk result (out.new ≡ out.old ++ refused_text number why) }
{
    out.extend(b"refused ")?;
    put_decimal(number, out)?;
    out.extend(b" ")?;
    out.extend(refused_name(why).as_bytes())?;
    out.extend(b"\n")
}
