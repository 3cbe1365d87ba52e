//! The words of a line, each appended behind a space. After want of memory a front of what was to come was appended.

ghost use Rattle.std.specs.Prelude.{◌≡◌, ◌∷◌, ◌++◌, OnOk, length, take};
ghost use Rattle.std.specs.Fmt.{decimal};
ghost use Rattle.atspi_base.specs.Quoted.{quoted};
ghost use Rattle.atspi_trace_texts.specs.Written.{party_text, role_text, state_text};

use atspi_base::{Bytes, NoMemory, Text, put_decimal, put_quoted};
use atspi_script_lines::Party;
use atspi_tables::{role_word, state_name};

/// Appends a word.
pub(crate) fn put_word(word: &[u8], out: &mut Bytes) -> Result<(), NoMemory>
    ensures ok { OnOk result (out.new ≡ out.old ++ 32 ∷ word.now) }
    ensures front { take (length out.old) out.new ≡ out.old }
{
    out.push(b' ')?;
    out.extend(word)
}

/// Appends a number.
pub(crate) fn put_number(n: u32, out: &mut Bytes) -> Result<(), NoMemory>
    ensures ok { OnOk result (out.new ≡ out.old ++ 32 ∷ decimal n) }
    ensures front { take (length out.old) out.new ≡ out.old }
{
    out.push(b' ')?;
    put_decimal(n as u64, out)
}

/// Appends a quoted text.
pub(crate) fn put_text(text: &Text, out: &mut Bytes) -> Result<(), NoMemory>
    ensures ok { OnOk result (out.new ≡ out.old ++ 32 ∷ quoted text.now) }
    ensures front { take (length out.old) out.new ≡ out.old }
{
    out.push(b' ')?;
    put_quoted(text, out)
}

/// Appends an application.
pub(crate) fn put_app(app: u32, out: &mut Bytes) -> Result<(), NoMemory>
    ensures ok { OnOk result (out.new ≡ out.old ++ 32 ∷ 97 ∷ decimal app) }
    ensures front { take (length out.old) out.new ≡ out.old }
{
    out.extend(b" a")?;
    put_decimal(app as u64, out)
}

/// Appends a reader.
pub(crate) fn put_reader(reader: u32, out: &mut Bytes) -> Result<(), NoMemory>
    ensures ok { OnOk result (out.new ≡ out.old ++ 32 ∷ 114 ∷ decimal reader) }
    ensures front { take (length out.old) out.new ≡ out.old }
{
    out.extend(b" r")?;
    put_decimal(reader as u64, out)
}

/// Appends a party.
pub(crate) fn put_party(who: Party, out: &mut Bytes) -> Result<(), NoMemory>
    ensures ok { OnOk result (out.new ≡ out.old ++ 32 ∷ party_text who) }
    ensures front { take (length out.old) out.new ≡ out.old }
{
    match who {
        Party::Bus => out.extend(b" bus"),
        Party::Registry => out.extend(b" reg"),
        Party::App(app) => put_app(app, out),
        Party::Reader(reader) => put_reader(reader, out),
    }
}

/// Appends a role.
pub(crate) fn put_role(role: u32, out: &mut Bytes) -> Result<(), NoMemory>
    ensures ok { OnOk result (out.new ≡ out.old ++ 32 ∷ role_text role) }
    ensures front { take (length out.old) out.new ≡ out.old }
{
    match role_word(role) {
        Some(word) => put_word(word.as_bytes(), out),
        None => put_number(role, out),
    }
}

/// Appends a state.
pub(crate) fn put_state(state: u8, out: &mut Bytes) -> Result<(), NoMemory>
    ensures ok { OnOk result (out.new ≡ out.old ++ 32 ∷ state_text state) }
    ensures front { take (length out.old) out.new ≡ out.old }
{
    match state_name(state) {
        Some(name) => put_word(name.as_bytes(), out),
        None => put_number(state as u32, out),
    }
}
