//! What the lines of an input ask for, and what reading them answers.

ghost use Rattle.std.specs.Prelude.{◌≡◌, ◌<◌, ◌≤◌, ◌++◌, ℕ, [], List, None, Some, Ok, Err, IsUtf8, codes, length};
ghost use Rattle.atspi_script_lines.specs.declared.limits.TheConstants.{LINE_LIMIT};
ghost use Rattle.atspi_script_lines.specs.declared.line.LineFault.TheVariants as faults;
ghost use Rattle.atspi_live_app.specs.Asking.{IsAsk, IsEditLine, IsWait};
ghost use Rattle.atspi_live_app.specs.inner.Asking.{AsksFor, EditIn, OtherIn, edit_in, plain_in};
ghost use Rattle.atspi_live_app.specs.declared.asking.Ask.{Ask};
ghost use Rattle.atspi_live_app.specs.declared.asking.Ask.TheVariants as asks;
ghost use Rattle.atspi_live_examples.specs.app.Lines.{named};

use atspi_script_lines::Line;
use atspi_tree_model::Edit;

/// An empty line and a comment ask for nothing, `app` for a start, `wait` for rounds, and all else is an edit without
/// the words in front that it has in a script.
pub fn lines_that_ask()
    ensures nothing { IsAsk asks.Nothing [] }
    ensures comment { IsAsk asks.Nothing (codes "# x") }
    ensures start { IsAsk (asks.Start (codes "T")) named }
    ensures edit { IsAsk (asks.Edit (Edit.Focus 5)) (codes "focus 5") }
    ensures wait { IsAsk (asks.Wait 2) (codes "wait 2") }
    ensures edit_line { IsEditLine (Edit.Focus 5) (codes "focus 5") }
    ensures not_nothing { IsAsk asks.Nothing (codes "wait 2") → ⊥ }
    ensures other_name { IsAsk (asks.Start (codes "U")) named → ⊥ }
    ensures other_edit { IsAsk (asks.Edit (Edit.Focus 6)) (codes "focus 5") → ⊥ }
    ensures whole_edit { IsEditLine (Edit.Focus 5) (codes "edit a0 focus 5") → ⊥ }
    ensures no_wait { IsAsk (asks.Wait 2) (codes "focus 5") → ⊥ }
    ensures in_edit { edit_in (Line.Edit 3 (Edit.Focus 5)) ≡ Some (Edit.Focus 5) }
    ensures in_other { edit_in Line.Drain ≡ None }
    ensures plain_blank { plain_in Line.Blank ≡ Some asks.Nothing }
    ensures plain_start { plain_in (Line.App (codes "T")) ≡ Some (asks.Start (codes "T")) }
    ensures plain_other { plain_in (Line.Edit 3 (Edit.Focus 5)) ≡ None }
{}

/// Bytes that are read as an edit alone are one, or none; too many of them, or such as are not UTF-8, are no answer
/// here.
pub fn edits_read()
    ensures edit { EditIn (Ok (Edit.Focus 5)) (codes "focus 5") }
    ensures other { EditIn (Ok (Edit.Focus 6)) (codes "focus 5") → ⊥ }
    ensures long { (bytes : List ℕ) → EditIn (Err faults.Long) bytes → ⊥ }
    ensures not_utf8 { (bytes : List ℕ) → EditIn (Err faults.NotUtf8) bytes → ⊥ }
    ensures none { (bytes : List ℕ) → (IsUtf8 (codes "edit a0 " ++ bytes) → ⊥) → EditIn (Err faults.Form) bytes }
    ensures not_none { EditIn (Err faults.Form) (codes "focus 5") → ⊥ }
    ensures wanting { EditIn (Err faults.NoMemory) (codes "focus 5") }
{}

/// Of other lines than empty ones and starts the same holds, with waits.
pub fn others_read()
    ensures wait { OtherIn (Ok (asks.Wait 2)) (codes "wait 2") }
    ensures edit { OtherIn (Ok (asks.Edit (Edit.Focus 5))) (codes "focus 5") }
    ensures other { OtherIn (Ok (asks.Wait 2)) (codes "focus 5") → ⊥ }
    ensures long { (bytes : List ℕ) → OtherIn (Err faults.Long) bytes → ⊥ }
    ensures not_utf8 { (bytes : List ℕ) → OtherIn (Err faults.NotUtf8) bytes → ⊥ }
    ensures none { (bytes : List ℕ) → (IsUtf8 (codes "edit a0 " ++ bytes) → ⊥) → ((n : ℕ) → IsWait n bytes → ⊥)
        → OtherIn (Err faults.Form) bytes }
    ensures is_wait { OtherIn (Err faults.Form) (codes "wait 2") → ⊥ }
    ensures is_edit { OtherIn (Err faults.Form) (codes "focus 5") → ⊥ }
    ensures wanting { OtherIn (Err faults.NoMemory) [] }
{}

/// Of any line: what it asks for; else that it is too long, then that it is no UTF-8, then that it asks for nothing
/// that there is.
pub fn lines_read()
    ensures blank { AsksFor (Ok asks.Nothing) [] }
    ensures not_wait { AsksFor (Ok (asks.Wait 2)) [] → ⊥ }
    ensures long { (bytes : List ℕ) → LINE_LIMIT < length bytes → AsksFor (Err faults.Long) bytes }
    ensures short { AsksFor (Err faults.Long) [] → ⊥ }
    ensures not_utf8 { (bytes : List ℕ) → length bytes ≤ LINE_LIMIT → (IsUtf8 bytes → ⊥)
        → AsksFor (Err faults.NotUtf8) bytes }
    ensures utf8 { AsksFor (Err faults.NotUtf8) [] → ⊥ }
    ensures long_first { (bytes : List ℕ) → LINE_LIMIT < length bytes → AsksFor (Err faults.NotUtf8) bytes → ⊥ }
    ensures none { (bytes : List ℕ) → ((what : Ask) → IsAsk what bytes → ⊥) → AsksFor (Err faults.Form) bytes }
    ensures not_none { AsksFor (Err faults.Form) [] → ⊥ }
    ensures wanting { AsksFor (Err faults.NoMemory) [] }
{}
