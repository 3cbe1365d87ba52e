//! The words of each line of a script, of each edit and each deed, and how words are spelled.

ghost use Rattle.std.specs.Prelude.{◌≡◌, ◌∷◌, [], ◌+◌, ◌^◌, None, Some, codes, true, false};
ghost use Rattle.atspi_script_lines.specs.Words.{literal, number, place, quota, app_name, reader_name, party_name};
ghost use Rattle.atspi_script_lines.specs.Words.{role_name, state_name, quote, IsText, SpellsParty, SpellsWord};
ghost use Rattle.atspi_script_lines.specs.Words.{SpellsWords, IsBehind};
ghost use Rattle.atspi_script_lines.specs.Forms.{edit_form, deed_form, line_form};
ghost use Rattle.atspi_script_lines.specs.Line.{IsBlank, SpelledAs};
ghost use Rattle.atspi_examples.specs.Room.{hello, plain, with_columns, with_text, full_seed};

use atspi_script_lines::{Deed, Line, Party};
use atspi_tree_model::Edit;

/// A new node's words: its parent, its index, its role, its name, and then what it has, in one order.
pub fn insertions()
    ensures all { edit_form (Edit.Insert 1 2 full_seed)
        ≡ literal (codes "insert") ∷ number 1 ∷ number 2 ∷ role_name 61 ∷ quote (codes "n") ∷ literal (codes "text")
        ∷ quote hello ∷ literal (codes "columns") ∷ number 2 ∷ literal (codes "select") ∷ literal (codes "action")
        ∷ quote (codes "a") ∷ [] }
    ensures none { edit_form (Edit.Insert 1 2 (plain 39 (codes "A")))
        ≡ literal (codes "insert") ∷ number 1 ∷ number 2 ∷ role_name 39 ∷ quote (codes "A") ∷ [] }
    ensures fixed { edit_form (Edit.Insert 0 3 (with_text hello))
        ≡ literal (codes "insert") ∷ number 0 ∷ number 3 ∷ role_name 0 ∷ quote [] ∷ literal (codes "static")
        ∷ quote hello ∷ [] }
    ensures columns { edit_form (Edit.Insert 0 3 (with_columns 7))
        ≡ literal (codes "insert") ∷ number 0 ∷ number 3 ∷ role_name 0 ∷ quote [] ∷ literal (codes "columns") ∷ number 7
        ∷ [] }
    ensures actions { edit_form (Edit.Insert 0 3 (record (plain 0 []) { actions = codes "a" ∷ codes "b" ∷ [] }))
        ≡ literal (codes "insert") ∷ number 0 ∷ number 3 ∷ role_name 0 ∷ quote [] ∷ literal (codes "action")
        ∷ quote (codes "a") ∷ literal (codes "action") ∷ quote (codes "b") ∷ [] }
{}

/// The words of every other edit.
pub fn edits()
    ensures remove { edit_form (Edit.Remove 5) ≡ literal (codes "remove") ∷ number 5 ∷ [] }
    ensures moved { edit_form (Edit.Move 5 6 7) ≡ literal (codes "move") ∷ number 5 ∷ number 6 ∷ number 7 ∷ [] }
    ensures name { edit_form (Edit.Name 5 hello) ≡ literal (codes "name") ∷ number 5 ∷ quote hello ∷ [] }
    ensures describe { edit_form (Edit.Describe 5 hello) ≡ literal (codes "describe") ∷ number 5 ∷ quote hello ∷ [] }
    ensures role { edit_form (Edit.Role 5 6) ≡ literal (codes "role") ∷ number 5 ∷ role_name 6 ∷ [] }
    ensures on { edit_form (Edit.State 5 6 true)
        ≡ literal (codes "state") ∷ number 5 ∷ state_name 6 ∷ literal (codes "on") ∷ [] }
    ensures off { edit_form (Edit.State 5 6 false)
        ≡ literal (codes "state") ∷ number 5 ∷ state_name 6 ∷ literal (codes "off") ∷ [] }
    ensures focus { edit_form (Edit.Focus 5) ≡ literal (codes "focus") ∷ number 5 ∷ [] }
    ensures put { edit_form (Edit.Put 5 6 hello) ≡ literal (codes "put") ∷ number 5 ∷ number 6 ∷ quote hello ∷ [] }
    ensures typed { edit_form (Edit.Keys 5 hello) ≡ literal (codes "type") ∷ number 5 ∷ quote hello ∷ [] }
    ensures cut { edit_form (Edit.Cut 5 6 7) ≡ literal (codes "cut") ∷ number 5 ∷ number 6 ∷ number 7 ∷ [] }
    ensures caret { edit_form (Edit.Caret 5 6) ≡ literal (codes "caret") ∷ number 5 ∷ number 6 ∷ [] }
    ensures mark { edit_form (Edit.Mark 5 6 7) ≡ literal (codes "mark") ∷ number 5 ∷ number 6 ∷ number 7 ∷ [] }
    ensures unmark { edit_form (Edit.Unmark 5) ≡ literal (codes "unmark") ∷ number 5 ∷ [] }
    ensures select { edit_form (Edit.Select 5 6) ≡ literal (codes "select") ∷ number 5 ∷ number 6 ∷ [] }
    ensures deselect { edit_form (Edit.Deselect 5 6) ≡ literal (codes "deselect") ∷ number 5 ∷ number 6 ∷ [] }
    ensures press { edit_form (Edit.Press 5 6) ≡ literal (codes "press") ∷ number 5 ∷ number 6 ∷ [] }
    ensures relate { edit_form (Edit.Relate 5 6 7) ≡ literal (codes "relate") ∷ number 5 ∷ number 6 ∷ number 7 ∷ [] }
    ensures unrelate { edit_form (Edit.Unrelate 5 6 7)
        ≡ literal (codes "unrelate") ∷ number 5 ∷ number 6 ∷ number 7 ∷ [] }
{}

/// The words of each deed.
pub fn deeds()
    ensures caret { deed_form (Deed.SetCaret 5) ≡ literal (codes "set-caret") ∷ place 5 ∷ [] }
    ensures insert { deed_form (Deed.InsertText 5 hello) ≡ literal (codes "insert-text") ∷ place 5 ∷ quote hello ∷ [] }
    ensures delete { deed_form (Deed.DeleteText 5 6) ≡ literal (codes "delete-text") ∷ place 5 ∷ place 6 ∷ [] }
    ensures replace { deed_form (Deed.SetText hello) ≡ literal (codes "set-text") ∷ quote hello ∷ [] }
    ensures select { deed_form (Deed.SelectChild 5) ≡ literal (codes "select-child") ∷ place 5 ∷ [] }
    ensures deselect { deed_form (Deed.DeselectChild 5) ≡ literal (codes "deselect-child") ∷ place 5 ∷ [] }
    ensures select_all { deed_form Deed.SelectAll ≡ literal (codes "select-all") ∷ [] }
    ensures clear { deed_form Deed.ClearSelection ≡ literal (codes "clear-selection") ∷ [] }
    ensures act { deed_form (Deed.DoAction 5) ≡ literal (codes "do-action") ∷ place 5 ∷ [] }
{}

/// The words of each line.
pub fn lines()
    ensures blank { line_form Line.Blank ≡ [] }
    ensures quota { line_form (Line.Quota 4096) ≡ literal (codes "quota") ∷ quota 4096 ∷ [] }
    ensures app { line_form (Line.App hello) ≡ literal (codes "app") ∷ quote hello ∷ [] }
    ensures reader { line_form Line.Reader ≡ literal (codes "reader") ∷ [] }
    ensures edit { line_form (Line.Edit 3 (Edit.Focus 5))
        ≡ literal (codes "edit") ∷ app_name 3 ∷ literal (codes "focus") ∷ number 5 ∷ [] }
    ensures call { line_form (Line.Call 2 3 4 (Deed.DoAction 5))
        ≡ literal (codes "call") ∷ reader_name 2 ∷ app_name 3 ∷ place 4 ∷ literal (codes "do-action") ∷ place 5 ∷ [] }
    ensures swap { line_form (Line.Swap 3) ≡ literal (codes "swap") ∷ app_name 3 ∷ [] }
    ensures exit { line_form (Line.Exit 3) ≡ literal (codes "exit") ∷ app_name 3 ∷ [] }
    ensures leave { line_form (Line.Leave 2) ≡ literal (codes "leave") ∷ reader_name 2 ∷ [] }
    ensures up { line_form (Line.Bytes Party.Registry true 9)
        ≡ literal (codes "bytes") ∷ party_name Party.Registry ∷ literal (codes "up") ∷ number 9 ∷ [] }
    ensures down { line_form (Line.Bytes (Party.App 3) false 9)
        ≡ literal (codes "bytes") ∷ party_name (Party.App 3) ∷ literal (codes "down") ∷ number 9 ∷ [] }
    ensures turns { line_form (Line.Turns 9) ≡ literal (codes "turns") ∷ number 9 ∷ [] }
    ensures drain { line_form Line.Drain ≡ literal (codes "drain") ∷ [] }
    ensures show { line_form (Line.Show 2 3) ≡ literal (codes "show") ∷ reader_name 2 ∷ app_name 3 ∷ [] }
{}

/// Numbers, at the ends of what each word allows; the bus has no link of its own.
#[tactic(auto, unfolding(atspi_tables::specs::States::state_names))]
pub fn words()
    ensures literal { SpellsWord (literal (codes "put")) (codes "put") }
    ensures other_literal { SpellsWord (literal (codes "put")) (codes "cut") → ⊥ }
    ensures number { SpellsWord (number 4294967295) (codes "4294967295") }
    ensures no_number { SpellsWord (number 4294967296) (codes "4294967296") → ⊥ }
    ensures place { SpellsWord (place 2147483647) (codes "2147483647") }
    ensures no_place { SpellsWord (place 2147483648) (codes "2147483648") → ⊥ }
    ensures least_quota { SpellsWord (quota 1024) (codes "1024") }
    ensures small_quota { SpellsWord (quota 1023) (codes "1023") → ⊥ }
    ensures most_quota { SpellsWord (quota 16777216) (codes "16777216") }
    ensures large_quota { SpellsWord (quota 16777217) (codes "16777217") → ⊥ }
    ensures app { SpellsWord (app_name 15) (codes "a15") }
    ensures no_app { SpellsWord (app_name 16) (codes "a16") → ⊥ }
    ensures reader { SpellsWord (reader_name 3) (codes "r3") }
    ensures no_reader { SpellsWord (reader_name 4) (codes "r4") → ⊥ }
    ensures registry { SpellsWord (party_name Party.Registry) (codes "reg") }
    ensures bus { SpellsParty Party.Bus (codes "bus") → ⊥ }
    ensures an_app { SpellsParty (Party.App 15) (codes "a15") }
    ensures no_app_party { SpellsParty (Party.App 16) (codes "a16") → ⊥ }
    ensures a_reader { SpellsParty (Party.Reader 3) (codes "r3") }
    ensures no_reader_party { SpellsParty (Party.Reader 4) (codes "r4") → ⊥ }
    ensures state { SpellsWord (state_name 12) (codes "focused") }
    ensures other_state { SpellsWord (state_name 12) (codes "selected") → ⊥ }
    ensures text { IsText (codes "a") }
    ensures zero { IsText (97 ∷ 0 ∷ []) → ⊥ }
    ensures no_scalar { IsText (55296 ∷ []) → ⊥ }
{}

/// A comment begins with a number sign; behind a word stands nothing or a space.
pub fn blanks()
    ensures empty { IsBlank [] }
    ensures comment { IsBlank (codes "#x") }
    ensures no_comment { IsBlank (codes " #") → ⊥ }
    ensures end { IsBehind [] }
    ensures space { IsBehind (codes " x") }
    ensures no_space { IsBehind (codes "x") → ⊥ }
{}

/// Each word stands behind one space, but the first, and nothing stands behind the last.
pub fn spelled()
    ensures drain { SpelledAs Line.Drain (codes "drain") }
    ensures two { SpellsWords (literal (codes "a") ∷ literal (codes "b") ∷ []) (codes " a b") }
    ensures blank { SpelledAs Line.Blank (codes "# x") }
    ensures no_space { SpellsWords (literal (codes "drain") ∷ []) (codes "drain") → ⊥ }
    ensures no_more { SpellsWords [] (codes " x") → ⊥ }
{}
