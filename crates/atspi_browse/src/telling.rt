//! The line that tells what was read.

ghost use Rattle.std.specs.Prelude.{◌≡◌, ◌≤◌, ◌-◌, ◌++◌, ◌∷◌, [], take, drop, length, chars, codes, OnOk};
ghost use Rattle.std.specs.Fmt.{decimal};
ghost use Rattle.atspi_base.specs.Quoted.{quoted};
ghost use Rattle.atspi_script_lines.specs.Words.{literal};
ghost use Rattle.atspi_trace_texts.specs.Written.{words_text};
ghost use Rattle.atspi_browse.specs.UnitLine.{text_named, unit_text};
ghost use Rattle.atspi_browse.specs.Fits.{FitsIn};
ghost use Rattle.atspi_browse.specs.inner.Telling.{behind_names};

use crate::line::UnitLine;
use atspi_base::{Bytes, NoMemory, Text, byte_of, put_decimal, put_in_quotes};
use atspi_cursors::Reading;

/// The characters of a text from one place up to another.
fn part(text: &str, start: u32, end: u32) -> &str
    requires ordered { start ≤ end }
    requires within { end ≤ length (chars text.now) }
    ensures { chars result.now ≡ take (end - start) (drop start (chars text.now)) }
{
    let from = byte_of(text, start as usize);
    let rest = &text[from..];
    let len = byte_of(rest, (end - start) as usize);
    &rest[..len]
}

/// Appends `unit` and whose text it is.
fn put_names(line: &UnitLine, out: &mut Bytes) -> Result<(), NoMemory>
    ensures { OnOk result (out.new ≡ out.old ++ words_text (literal (codes "unit") ∷ text_named line.now [])) }
{
    out.extend(b"unit r")?;
    put_decimal(line.reader as u64, out)?;
    out.extend(b" a")?;
    put_decimal(line.app as u64, out)?;
    out.push(b' ')?;
    put_decimal(line.node as u64, out)
}

/// Appends two places.
fn put_places(unit: Reading, out: &mut Bytes) -> Result<(), NoMemory>
    ensures { OnOk result (out.new ≡ out.old ++ (32 ∷ decimal unit.start ++ 32 ∷ decimal unit.end)) }
{
    out.push(b' ')?;
    put_decimal(unit.start as u64, out)?;
    out.push(b' ')?;
    put_decimal(unit.end as u64, out)
}

/// Appends the characters of a text from one place up to another, in quotes.
fn put_part(text: &Text, unit: Reading, out: &mut Bytes) -> Result<(), NoMemory>
    requires ordered { unit.start ≤ unit.end }
    requires within { unit.end ≤ length text.now }
    ensures { OnOk result
        (out.new ≡ out.old ++ 32 ∷ quoted (take (unit.end - unit.start) (drop unit.start text.now))) }
{
    out.push(b' ')?;
    put_in_quotes(part(text.as_str(), unit.start, unit.end).as_bytes(), out)
}

/// Appends what stands behind the names: where the unit starts, where the next one does, and its characters; or `end`.
fn put_unit(text: &Text, reading: Option<Reading>, out: &mut Bytes) -> Result<(), NoMemory>
    requires { FitsIn reading text.now }
    ensures { OnOk result (out.new ≡ out.old ++ behind_names text.now reading) }
{
    match reading {
        Some(unit) => {
            put_places(unit, out)?;
            put_part(text, unit, out)?;
        }
        None => out.extend(b" end")?,
    }
    out.push(b'\n')
}

/// Appends the line that tells what a line read in a text.
pub fn write_unit(
    line: &UnitLine,
    text: &Text,
    reading: Option<Reading>,
    out: &mut Bytes,
) -> Result<(), NoMemory>
    requires { FitsIn reading text.now }
    ensures { OnOk result (out.new ≡ out.old ++ unit_text line.now text.now reading) }
{
    put_names(line, out)?;
    put_unit(text, reading, out)
}
