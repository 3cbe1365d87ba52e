//! The text of a step, behind the application that it changes. After want of memory a front of it was appended.

ghost use Rattle.std.specs.Prelude.{◌≡◌, [], ◌∷◌, ◌++◌, OnOk, codes, length, take};
ghost use Rattle.atspi_script_lines.specs.Words.{literal, number, quote, role_name, state_name};
ghost use Rattle.atspi_script_lines.specs.Forms.{action_clauses, clauses, columns_clause, select_clause, text_clause};
ghost use Rattle.atspi_script_lines.specs.Forms.{switch_word};
ghost use Rattle.atspi_trace_texts.specs.EventForms.{mark_words, step_form, target_words};
ghost use Rattle.atspi_trace_texts.specs.Written.{words_behind};

use crate::words::{put_number, put_role, put_state, put_text, put_word};
use atspi_base::{Bytes, Marks, NoMemory, Nums, Text};
use atspi_tree_model::{Seed, Step};

/// Appends numbers.
fn put_numbers(numbers: &[u32], out: &mut Bytes) -> Result<(), NoMemory>
    ensures ok { OnOk result (out.new ≡ out.old ++ words_behind (target_words numbers.now)) }
    ensures front { take (length out.old) out.new ≡ out.old }
{
    for n in numbers {
        put_number(*n, out)?;
    }
    Ok(())
}

/// Appends where each selection begins and ends.
fn put_marks(marks: &[(u32, u32)], out: &mut Bytes) -> Result<(), NoMemory>
    ensures ok { OnOk result (out.new ≡ out.old ++ words_behind (mark_words marks.now)) }
    ensures front { take (length out.old) out.new ≡ out.old }
{
    for mark in marks {
        put_number(mark.0, out)?;
        put_number(mark.1, out)?;
    }
    Ok(())
}

/// Appends a word, a node's number, and a text.
fn put_node_text(word: &[u8], node: u32, text: &Text, out: &mut Bytes) -> Result<(), NoMemory>
    ensures ok { OnOk result
        (out.new ≡ out.old ++ words_behind (literal word.now ∷ number node ∷ quote text.now ∷ [])) }
    ensures front { take (length out.old) out.new ≡ out.old }
{
    put_word(word, out)?;
    put_number(node, out)?;
    put_text(text, out)
}

/// Appends a word, a node's number, a place in its text, and a text.
fn put_place_text(
    word: &[u8],
    node: u32,
    at: u32,
    text: &Text,
    out: &mut Bytes,
) -> Result<(), NoMemory>
    ensures ok { OnOk result
        (out.new ≡ out.old ++ words_behind (literal word.now ∷ number node ∷ number at ∷ quote text.now ∷ [])) }
    ensures front { take (length out.old) out.new ≡ out.old }
{
    put_word(word, out)?;
    put_number(node, out)?;
    put_number(at, out)?;
    put_text(text, out)
}

/// Appends a word and up to three numbers.
fn put_word_numbers(word: &[u8], numbers: &[u32], out: &mut Bytes) -> Result<(), NoMemory>
    ensures ok { OnOk result (out.new ≡ out.old ++ words_behind (literal word.now ∷ target_words numbers.now)) }
    ensures front { take (length out.old) out.new ≡ out.old }
{
    put_word(word, out)?;
    put_numbers(numbers, out)
}

/// Appends `text Q` or `static Q`, nothing where there is no text.
fn put_text_clause(text: &Option<Text>, editable: bool, out: &mut Bytes) -> Result<(), NoMemory>
    ensures ok { OnOk result (out.new ≡ out.old ++ words_behind (text_clause text.now editable)) }
    ensures front { take (length out.old) out.new ≡ out.old }
{
    let Some(text) = text else {
        return Ok(());
    };
    if editable {
        out.extend(b" text")?;
    } else {
        out.extend(b" static")?;
    }
    put_text(text, out)
}

/// Appends `columns K`, nothing where the node is no table.
fn put_columns(columns: Option<u32>, out: &mut Bytes) -> Result<(), NoMemory>
    ensures ok { OnOk result (out.new ≡ out.old ++ words_behind (columns_clause columns)) }
    ensures front { take (length out.old) out.new ≡ out.old }
{
    match columns {
        Some(count) => {
            out.extend(b" columns")?;
            put_number(count, out)
        }
        None => Ok(()),
    }
}

/// Appends `select`, nothing where children cannot be selected.
fn put_select(select: bool, out: &mut Bytes) -> Result<(), NoMemory>
    ensures ok { OnOk result (out.new ≡ out.old ++ words_behind (select_clause select)) }
    ensures front { take (length out.old) out.new ≡ out.old }
{
    if select {
        return out.extend(b" select");
    }
    Ok(())
}

/// Appends `action Q` for each action.
fn put_actions(actions: &[Text], out: &mut Bytes) -> Result<(), NoMemory>
    ensures ok { OnOk result (out.new ≡ out.old ++ words_behind (action_clauses actions.now)) }
    ensures front { take (length out.old) out.new ≡ out.old }
{
    for action in actions {
        out.extend(b" action")?;
        put_text(action, out)?;
    }
    Ok(())
}

/// Appends what a new node has beside its role and name.
#[tactic(auto, using(crate::proofs::Written::words_joined))]
fn put_clauses(seed: &Seed, out: &mut Bytes) -> Result<(), NoMemory>
    ensures ok { OnOk result (out.new ≡ out.old ++ words_behind (clauses seed.now)) }
    ensures front { take (length out.old) out.new ≡ out.old }
{
    put_text_clause(&seed.text, seed.editable, out)?;
    put_columns(seed.columns, out)?;
    put_select(seed.select, out)?;
    put_actions(seed.actions.as_slice(), out)
}

/// Appends what a new node begins with.
fn put_seed(seed: &Seed, out: &mut Bytes) -> Result<(), NoMemory>
    ensures ok { OnOk result
        (out.new ≡ out.old ++ words_behind (role_name seed.now.role ∷ quote seed.now.name ∷ clauses seed.now)) }
    ensures front { take (length out.old) out.new ≡ out.old }
{
    put_role(seed.role, out)?;
    put_text(&seed.name, out)?;
    put_clauses(seed, out)
}

/// Appends ` state`, a node's number, a state, and `on` or `off`.
fn put_switch(node: u32, state: u8, on: bool, out: &mut Bytes) -> Result<(), NoMemory>
    ensures ok { OnOk result
        (out.new
        ≡ out.old
        ++ words_behind
        (literal (codes "state") ∷ number node ∷ state_name state ∷ literal (switch_word on) ∷ [])) }
    ensures front { take (length out.old) out.new ≡ out.old }
{
    out.extend(b" state")?;
    put_number(node, out)?;
    put_state(state, out)?;
    if on {
        out.extend(b" on")
    } else {
        out.extend(b" off")
    }
}

/// Appends ` add`, the numbers of a new node, of its parent and of its place, and what it begins with.
fn put_add(node: u32, parent: u32, index: u32, seed: &Seed, out: &mut Bytes) -> Result<(), NoMemory>
    ensures ok { OnOk result
        (out.new
        ≡ out.old
        ++ words_behind
        (literal (codes "add") ∷ number node ∷ number parent ∷ number index ∷ role_name seed.now.role
        ∷ quote seed.now.name ∷ clauses seed.now)) }
    ensures front { take (length out.old) out.new ≡ out.old }
{
    put_word_numbers(b"add", &[node, parent, index], out)?;
    put_seed(seed, out)
}

/// Appends ` role`, a node's number and its role.
fn put_node_role(node: u32, role: u32, out: &mut Bytes) -> Result<(), NoMemory>
    ensures ok { OnOk result
        (out.new ≡ out.old ++ words_behind (literal (codes "role") ∷ number node ∷ role_name role ∷ [])) }
    ensures front { take (length out.old) out.new ≡ out.old }
{
    put_word_numbers(b"role", &[node], out)?;
    put_role(role, out)
}

/// Appends ` marks`, a node's number and its selections.
fn put_selections(node: u32, marks: &Marks, out: &mut Bytes) -> Result<(), NoMemory>
    ensures ok { OnOk result
        (out.new ≡ out.old ++ words_behind (literal (codes "marks") ∷ number node ∷ mark_words marks.now)) }
    ensures front { take (length out.old) out.new ≡ out.old }
{
    put_word_numbers(b"marks", &[node], out)?;
    put_marks(marks.as_slice(), out)
}

/// Appends ` relate`, a node's number, the kind of a relation and its targets.
fn put_relation(node: u32, kind: u32, targets: &Nums, out: &mut Bytes) -> Result<(), NoMemory>
    ensures ok { OnOk result
        (out.new
        ≡ out.old
        ++ words_behind (literal (codes "relate") ∷ number node ∷ number kind ∷ target_words targets.now)) }
    ensures front { take (length out.old) out.new ≡ out.old }
{
    put_word_numbers(b"relate", &[node, kind], out)?;
    put_numbers(targets.as_slice(), out)
}

/// Appends the words of a step, each behind a space.
pub(crate) fn put_step(step: &Step, out: &mut Bytes) -> Result<(), NoMemory>
    ensures ok { OnOk result (out.new ≡ out.old ++ words_behind (step_form step.now)) }
    ensures front { take (length out.old) out.new ≡ out.old }
{
    match step {
        Step::Add {
            node,
            parent,
            index,
            seed,
        } => put_add(*node, *parent, *index, seed, out),
        Step::Remove { node } => put_word_numbers(b"remove", &[*node], out),
        Step::Move {
            node,
            parent,
            index,
        } => put_word_numbers(b"move", &[*node, *parent, *index], out),
        Step::SetName { node, text } => put_node_text(b"name", *node, text, out),
        Step::SetDescription { node, text } => put_node_text(b"description", *node, text, out),
        Step::SetRole { node, role } => put_node_role(*node, *role, out),
        Step::SetState { node, state, on } => put_switch(*node, *state, *on, out),
        Step::Insert { node, at, text } => put_place_text(b"insert", *node, *at, text, out),
        Step::Delete { node, at, text } => put_place_text(b"delete", *node, *at, text, out),
        Step::Caret { node, at } => put_word_numbers(b"caret", &[*node, *at], out),
        Step::TextSelect { node, marks } => put_selections(*node, marks, out),
        Step::Relate {
            node,
            kind,
            targets,
        } => put_relation(*node, *kind, targets, out),
    }
}
