//! Insertions in a line: `insert P I ROLE Q` and the clauses that say what else the new node begins with.

ghost use Rattle.std.specs.Prelude.{◌≡◌, ◌≤◌, ℕ, List, [], ◌∷◌, ◌++◌, length, Bool, true, false, Option, codes, IfOk};
ghost use Rattle.std.specs.Prelude.{MatchOption};
ghost use Rattle.atspi_base.specs.declared.lists.Texts.{Texts as AnyTexts};
ghost use Rattle.atspi_base.specs.declared.text.Text.{Text as AnyText};
ghost use Rattle.atspi_tree_model.specs.declared.limits.TheConstants.{ACTION_LIMIT};
ghost use Rattle.atspi_script_lines.specs.Forms.{action_clauses, columns_clause, select_clause};
ghost use Rattle.atspi_script_lines.specs.inner.Reading.{Finds, HasNoSpace, IsClause, IsContents, IsEditOf, IsSeedOf};
ghost use Rattle.atspi_script_lines.specs.inner.Reading.{IsSeedWith, LeadAll, Reads, column_clauses, select_clauses};
ghost use Rattle.atspi_script_lines.specs.inner.Reading.{text_clause_of};
ghost use Rattle.atspi_script_lines.specs.Words.{Leads, SpellsWords, literal, number, quote, role_name};

use crate::numbers::next_number;
use crate::quoted::next_text;
use crate::tables::next_role;
use crate::words::next_word;
use atspi_base::{NoMemory, Text, Texts};
use atspi_tree_model::{ACTION_LIMIT, Edit, Seed};
use std::alloc::Global;

/// What follows this word, where it stands in front.
fn behind_literal<'a>(bytes: &'a [u8], word: &[u8]) -> Option<&'a [u8]>
    requires { HasNoSpace word.now }
    ensures { MatchOption result ((rest : List ℕ) → Leads (literal word.now) rest bytes.now → ⊥)
        (λ r. Leads (literal word.now) r.now bytes.now) }
{
    let Some((first, rest)) = next_word(bytes) else {
        return None;
    };
    if first != word {
        return None;
    }
    Some(rest)
}

/// The clause `action Q` in front, and what follows it.
fn next_action(alloc: Global, bytes: &[u8]) -> Result<Option<(Text, &[u8])>, NoMemory>
    ensures { IfOk result
        (λ found. MatchOption found
        ((name rest : List ℕ) → LeadAll (literal (codes "action") ∷ quote name ∷ []) rest bytes.now → ⊥)
        (λ r. LeadAll (literal (codes "action") ∷ quote r.0 ∷ []) r.1.now bytes.now)) }
{
    let Some(behind) = behind_literal(bytes, b"action") else {
        return Ok(None);
    };
    match next_text(alloc, behind)? {
        Some((name, rest)) => Ok(Some((name, rest))),
        None => Ok(None),
    }
}

/// The clauses `action Q`, no more than a node has actions.
fn read_actions(alloc: Global, bytes: &[u8]) -> Result<Option<Texts>, NoMemory>
    ensures { Reads (λ names. (length names ≤ ACTION_LIMIT) × SpellsWords (action_clauses names) bytes.now) result }
{
    let mut names = Texts::new(alloc);
    let mut rest = bytes;
    while !rest.is_empty() {
        if names.len() == ACTION_LIMIT {
            return Ok(None);
        }
        let Some((name, behind)) = next_action(alloc, rest)? else {
            return Ok(None);
        };
        names.push(name)?;
        rest = behind;
    }
    Ok(Some(names))
}

/// Whether the clause `select` stands in front, and what follows it.
fn split_select(bytes: &[u8]) -> (bool, &[u8])
    ensures { IsClause select_clause action_clauses result.0 result.1.now bytes.now }
{
    match behind_literal(bytes, b"select") {
        Some(rest) => (true, rest),
        None => (false, bytes),
    }
}

/// The clauses behind the count of columns.
fn read_selection(alloc: Global, bytes: &[u8]) -> Result<Option<(bool, Texts)>, NoMemory>
    ensures { Reads
        (λ (said : Bool × AnyTexts). (length said.1 ≤ ACTION_LIMIT) × SpellsWords (select_clauses said) bytes.now)
        result }
{
    let (select, rest) = split_select(bytes);
    match read_actions(alloc, rest)? {
        Some(names) => Ok(Some((select, names))),
        None => Ok(None),
    }
}

/// The count of columns that the clause in front says, where there is one, and what follows it.
fn split_columns(bytes: &[u8]) -> Option<(Option<u32>, &[u8])>
    ensures { MatchOption result
        ((said : Option ℕ) (after : Bool × AnyTexts)
        → SpellsWords (columns_clause said ++ select_clauses after) bytes.now → ⊥)
        (λ r. IsClause columns_clause select_clauses r.0 r.1.now bytes.now) }
{
    let Some(behind) = behind_literal(bytes, b"columns") else {
        return Some((None, bytes));
    };
    match next_number(behind) {
        Some((count, rest)) => Some((Some(count), rest)),
        None => None,
    }
}

/// The clauses behind the text.
fn read_columns(alloc: Global, bytes: &[u8]) -> Result<Option<(Option<u32>, bool, Texts)>, NoMemory>
    ensures { Reads
        (λ (said : Option ℕ × Bool × AnyTexts). (length said.2 ≤ ACTION_LIMIT)
        × SpellsWords (column_clauses said) bytes.now) result }
{
    let Some((columns, rest)) = split_columns(bytes) else {
        return Ok(None);
    };
    match read_selection(alloc, rest)? {
        Some((select, names)) => Ok(Some((columns, select, names))),
        None => Ok(None),
    }
}

/// What a new node begins with beside its role and name. The text comes with whether it can be edited.
#[derive(Drop)]
struct Contents {
    text: Option<(Text, bool)>,
    columns: Option<u32>,
    select: bool,
    actions: Texts,
}

/// The text that the clause in front says, and whether it can be edited, where there is one; and what follows it.
fn split_text(
    alloc: Global,
    bytes: &[u8],
) -> Result<Option<(Option<(Text, bool)>, &[u8])>, NoMemory>
    ensures { IfOk result
        (λ found. MatchOption found
        ((said : Option (AnyText × Bool)) (after : Option ℕ × Bool × AnyTexts)
        → SpellsWords (text_clause_of said ++ column_clauses after) bytes.now → ⊥)
        (λ r. IsClause text_clause_of column_clauses r.0 r.1.now bytes.now)) }
{
    if let Some(behind) = behind_literal(bytes, b"text") {
        return match next_text(alloc, behind)? {
            Some((text, rest)) => Ok(Some((Some((text, true)), rest))),
            None => Ok(None),
        };
    }
    if let Some(behind) = behind_literal(bytes, b"static") {
        return match next_text(alloc, behind)? {
            Some((text, rest)) => Ok(Some((Some((text, false)), rest))),
            None => Ok(None),
        };
    }
    Ok(Some((None, bytes)))
}

/// All clauses.
fn read_contents(alloc: Global, bytes: &[u8]) -> Result<Option<Contents>, NoMemory>
    ensures { Reads (IsContents bytes.now) result }
{
    let Some((text, rest)) = split_text(alloc, bytes)? else {
        return Ok(None);
    };
    match read_columns(alloc, rest)? {
        Some((columns, select, actions)) => Ok(Some(Contents {
            text,
            columns,
            select,
            actions,
        })),
        None => Ok(None),
    }
}

/// What a new node begins with.
fn seed_of(role: u32, name: Text, contents: Contents) -> Seed
    ensures { IsSeedWith role name contents result }
{
    let Contents {
        text,
        columns,
        select,
        actions,
    } = contents;
    match text {
        Some((text, editable)) => Seed {
            role,
            name,
            text: Some(text),
            editable,
            columns,
            select,
            actions,
        },
        None => Seed {
            role,
            name,
            text: None,
            editable: false,
            columns,
            select,
            actions,
        },
    }
}

/// The words behind an insertion's place.
fn read_seed(alloc: Global, bytes: &[u8]) -> Result<Option<Seed>, NoMemory>
    ensures { Reads (IsSeedOf bytes.now) result }
{
    let Some((role, behind)) = next_role(bytes) else {
        return Ok(None);
    };
    let Some((name, rest)) = next_text(alloc, behind)? else {
        return Ok(None);
    };
    match read_contents(alloc, rest)? {
        Some(contents) => Ok(Some(seed_of(role, name, contents))),
        None => Ok(None),
    }
}

/// The two numbers in front, and what follows them.
fn next_two(bytes: &[u8]) -> Option<(u32, u32, &[u8])>
    ensures { MatchOption result ((m n : ℕ) (rest : List ℕ) → LeadAll (number m ∷ number n ∷ []) rest bytes.now → ⊥)
        (λ r. LeadAll (number r.0 ∷ number r.1 ∷ []) r.2.now bytes.now) }
{
    let Some((first, behind)) = next_number(bytes) else {
        return None;
    };
    match next_number(behind) {
        Some((second, rest)) => Some((first, second, rest)),
        None => None,
    }
}

/// A node comes in.
pub(crate) fn read_insert(alloc: Global, bytes: &[u8]) -> Result<Option<Edit>, NoMemory>
    ensures { Reads (IsEditOf (codes "insert") bytes.now) result }
{
    let Some((parent, index, rest)) = next_two(bytes) else {
        return Ok(None);
    };
    match read_seed(alloc, rest)? {
        Some(seed) => Ok(Some(Edit::Insert {
            parent,
            index,
            seed,
        })),
        None => Ok(None),
    }
}
