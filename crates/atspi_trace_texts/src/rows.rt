//! The line of a shown row, without its line feed. After want of memory a front of it was appended.

ghost use Rattle.std.specs.Prelude.{◌≡◌, ◌↔◌, ◌/◌, codes, ℕ, List, [], ◌∷◌, ◌++◌, OnOk, IsTrue, MatchOption, length};
ghost use Rattle.std.specs.Prelude.{take};
ghost use Rattle.atspi_tree_model.specs.Path.{base_path};
ghost use Rattle.std.specs.Fmt.{signed_decimal};
ghost use Rattle.atspi_base.specs.Digits.{hex_digits};
ghost use Rattle.atspi_script_lines.specs.Words.{literal, role_name, quote};
ghost use Rattle.atspi_trace_texts.specs.Rows.{IsNodeWord, kinds_text, letter_if_odd, node_text, number_text};
ghost use Rattle.atspi_trace_texts.specs.Rows.{parent_text, part_word, row_line};
ghost use Rattle.atspi_trace_texts.specs.Written.{words_behind, words_text};

use crate::words::{put_number, put_role, put_text, put_word};
use atspi_base::valid_names::Path;
use atspi_base::{Bytes, NoMemory, put_hex, put_signed};
use atspi_script_lines::read_number;
use atspi_trace_events::ShownRow;
use atspi_tree_model::{NumPart, Part, Row};

/// How many bytes the path of each node of an application begins with.
const BASE_LENGTH: usize = 27;

/// What a path has behind what the paths of all nodes begin with.
#[tactic(auto, using(crate::proofs::NodeLemmas::short_path, crate::proofs::NodeLemmas::base_found, crate::proofs::NodeLemmas::other_base))]
fn behind_base(path: &[u8]) -> Option<&[u8]>
    ensures { MatchOption result ((word : List ℕ) → path.now ≡ base_path ++ word → ⊥)
        (λ word. path.now ≡ base_path ++ word.now) }
{
    if path.len() < BASE_LENGTH {
        return None;
    }
    let (front, word) = path.split_at(BASE_LENGTH);
    if front == b"/org/a11y/atspi/accessible/".as_slice() {
        return Some(word);
    }
    None
}

/// Whether this is what the path of a node has behind that: `root`, or a number from 1 on.
#[tactic(auto, using(crate::proofs::NodeLemmas::is_root, crate::proofs::NodeLemmas::is_number, crate::proofs::NodeLemmas::is_none))]
fn is_node_word(word: &[u8]) -> bool
    ensures { IsTrue result ↔ IsNodeWord word.now }
{
    if word == b"root".as_slice() {
        return true;
    }
    let Some(number) = read_number(word) else {
        return false;
    };
    number > 0
}

/// How a node is told, by its path.
#[tactic(auto, using(crate::proofs::NodeLemmas::no_base))]
fn node_word(path: &[u8]) -> &[u8]
    ensures { result.now ≡ node_text path.now }
{
    let Some(word) = behind_base(path) else {
        return path;
    };
    if !is_node_word(word) {
        return path;
    }
    word
}

/// Appends a node.
fn put_node(path: &Path, out: &mut Bytes) -> Result<(), NoMemory>
    ensures ok { OnOk result (out.new ≡ out.old ++ 32 ∷ node_text path.now) }
    ensures front { take (length out.old) out.new ≡ out.old }
{
    put_word(node_word(path.as_str().as_bytes()), out)
}

/// Appends a node's parent, `-` where it has none.
fn put_parent(parent: &Option<Path>, out: &mut Bytes) -> Result<(), NoMemory>
    ensures ok { OnOk result (out.new ≡ out.old ++ 32 ∷ parent_text parent.now) }
    ensures front { take (length out.old) out.new ≡ out.old }
{
    match parent {
        Some(path) => put_node(path, out),
        None => out.extend(b" -"),
    }
}

/// Appends an index.
fn put_index(index: i32, out: &mut Bytes) -> Result<(), NoMemory>
    ensures ok { OnOk result (out.new ≡ out.old ++ 32 ∷ signed_decimal index) }
    ensures front { take (length out.old) out.new ≡ out.old }
{
    out.push(b' ')?;
    put_signed(index as i64, out)
}

/// Appends states.
fn put_states(states: u64, out: &mut Bytes) -> Result<(), NoMemory>
    ensures ok { OnOk result (out.new ≡ out.old ++ 32 ∷ hex_digits 16 states) }
    ensures front { take (length out.old) out.new ≡ out.old }
{
    out.push(b' ')?;
    put_hex(states, out)
}

/// Appends a letter where the number is odd.
fn put_letter(letter: u8, n: u8, out: &mut Bytes) -> Result<(), NoMemory>
    ensures ok { OnOk result (out.new ≡ out.old ++ letter_if_odd letter n) }
    ensures front { take (length out.old) out.new ≡ out.old }
{
    if n % 2 == 1 {
        return out.push(letter);
    }
    Ok(())
}

/// Appends the letters of the interfaces of texts and of selections.
fn put_text_kinds(faces: u8, out: &mut Bytes) -> Result<(), NoMemory>
    ensures ok { OnOk result
        (out.new
        ≡ out.old ++ (letter_if_odd 84 faces ++ (letter_if_odd 69 (faces / 2) ++ letter_if_odd 76 (faces / 4)))) }
    ensures front { take (length out.old) out.new ≡ out.old }
{
    put_letter(b'T', faces, out)?;
    put_letter(b'E', faces / 2, out)?;
    put_letter(b'L', faces / 4, out)
}

/// Appends the letters of the interfaces of tables and of actions.
fn put_other_kinds(faces: u8, out: &mut Bytes) -> Result<(), NoMemory>
    ensures ok { OnOk result (out.new ≡ out.old ++ (letter_if_odd 66 (faces / 8) ++ letter_if_odd 65 (faces / 16))) }
    ensures front { take (length out.old) out.new ≡ out.old }
{
    put_letter(b'B', faces / 8, out)?;
    put_letter(b'A', faces / 16, out)
}

/// Appends the letters of interfaces, `-` where there are none.
fn put_kinds(faces: u8, out: &mut Bytes) -> Result<(), NoMemory>
    ensures ok { OnOk result (out.new ≡ out.old ++ 32 ∷ kinds_text faces) }
    ensures front { take (length out.old) out.new ≡ out.old }
{
    if faces % 32 == 0 {
        return out.extend(b" -");
    }
    out.push(b' ')?;
    put_text_kinds(faces, out)?;
    put_other_kinds(faces, out)
}

/// Appends a text, `-` where there is none and `?` where it is not known.
fn put_part(part: &Part, out: &mut Bytes) -> Result<(), NoMemory>
    ensures ok { OnOk result (out.new ≡ out.old ++ words_behind (part_word part.now ∷ [])) }
    ensures front { take (length out.old) out.new ≡ out.old }
{
    match part {
        Part::Absent => out.extend(b" -"),
        Part::Unknown => out.extend(b" ?"),
        Part::Known(text) => put_text(text, out),
    }
}

/// Appends a number, the same way.
fn put_number_part(part: NumPart, out: &mut Bytes) -> Result<(), NoMemory>
    ensures ok { OnOk result (out.new ≡ out.old ++ 32 ∷ number_text part) }
    ensures front { take (length out.old) out.new ≡ out.old }
{
    match part {
        NumPart::Absent => out.extend(b" -"),
        NumPart::Unknown => out.extend(b" ?"),
        NumPart::Known(n) => put_number(n, out),
    }
}

/// Appends where a node stands: its own path, that of its parent, and its index.
fn put_seat(shown: &ShownRow, out: &mut Bytes) -> Result<(), NoMemory>
    ensures ok { OnOk result
        (out.new
        ≡ out.old
        ++ words_behind
        (literal (node_text shown.now.row.path) ∷ literal (parent_text shown.now.parent)
        ∷ literal (signed_decimal shown.now.index) ∷ [])) }
    ensures front { take (length out.old) out.new ≡ out.old }
{
    put_node(&shown.row.path, out)?;
    put_parent(&shown.parent, out)?;
    put_index(shown.index, out)
}

/// Appends what a node is called.
fn put_names(row: &Row, out: &mut Bytes) -> Result<(), NoMemory>
    ensures ok { OnOk result (out.new ≡ out.old ++ words_behind (quote row.now.name ∷ quote row.now.description ∷ [])) }
    ensures front { take (length out.old) out.new ≡ out.old }
{
    put_text(&row.name, out)?;
    put_text(&row.description, out)
}

/// Appends what a node is: role, states, name, description, interfaces.
fn put_nature(row: &Row, out: &mut Bytes) -> Result<(), NoMemory>
    ensures ok { OnOk result
        (out.new
        ≡ out.old
        ++ words_behind
        (role_name row.now.role ∷ literal (hex_digits 16 row.now.states) ∷ quote row.now.name
        ∷ quote row.now.description ∷ literal (kinds_text row.now.faces) ∷ [])) }
    ensures front { take (length out.old) out.new ≡ out.old }
{
    put_role(row.role, out)?;
    put_states(row.states, out)?;
    put_names(row, out)?;
    put_kinds(row.faces, out)
}

/// Appends what a node contains: its text, its caret, its columns.
fn put_contents(row: &Row, out: &mut Bytes) -> Result<(), NoMemory>
    ensures ok { OnOk result
        (out.new
        ≡ out.old
        ++ words_behind
        (part_word row.now.text ∷ literal (number_text row.now.caret)
        ∷ literal (number_text row.now.columns) ∷ [])) }
    ensures front { take (length out.old) out.new ≡ out.old }
{
    put_part(&row.text, out)?;
    put_number_part(row.caret, out)?;
    put_number_part(row.columns, out)
}

/// Appends what a row has behind the node's place.
fn put_node_parts(row: &Row, out: &mut Bytes) -> Result<(), NoMemory>
    ensures ok { OnOk result
        (out.new
        ≡ out.old
        ++ words_behind
        (role_name row.now.role ∷ literal (hex_digits 16 row.now.states) ∷ quote row.now.name
        ∷ quote row.now.description ∷ literal (kinds_text row.now.faces) ∷ part_word row.now.text
        ∷ literal (number_text row.now.caret) ∷ literal (number_text row.now.columns) ∷ [])) }
    ensures front { take (length out.old) out.new ≡ out.old }
{
    put_nature(row, out)?;
    put_contents(row, out)
}

/// Appends `|` and where a node stands.
fn put_place(shown: &ShownRow, out: &mut Bytes) -> Result<(), NoMemory>
    ensures ok { OnOk result
        (out.new
        ≡ out.old
        ++ words_text
        (literal (codes "|") ∷ literal (node_text shown.now.row.path)
        ∷ literal (parent_text shown.now.parent) ∷ literal (signed_decimal shown.now.index) ∷ [])) }
    ensures front { take (length out.old) out.new ≡ out.old }
{
    out.push(b'|')?;
    put_seat(shown, out)
}

/// Appends a row's line.
pub(crate) fn put_row(shown: &ShownRow, out: &mut Bytes) -> Result<(), NoMemory>
    ensures ok { OnOk result (out.new ≡ out.old ++ row_line shown.now) }
    ensures front { take (length out.old) out.new ≡ out.old }
{
    put_place(shown, out)?;
    put_node_parts(&shown.row, out)
}
