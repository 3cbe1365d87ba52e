//! Which bytes are a match rule, and what is wrong first with those that are none (D-Bus Specification, "Match Rules").
//!
//! A fault is a place, which counts bytes from 0, and a number: 1 no `=`, 2 no such key, 3 the key stands before, 4 a
//! quoted part is not closed, 5 no such type, 6 a value that its key may not have, 7 both `path` and `path_namespace`,
//! 8 more than 1,024 bytes.

ghost use Rattle.std.specs.Prelude.{◌≡◌, ◌∷◌, [], true, false, ℕ, List, codes, length, map};
ghost use Rattle.std.specs.List.{AllByRecursion};
ghost use Rattle.atspi_base.specs.valid_names.Names.{IsElement};
ghost use Rattle.atspi_base.specs.declared.valid_names.elements.Form.TheVariants as forms;
ghost use Rattle.atspi_match.specs.Conditions.{rank, key_text, type_text, bool_text, value_text, same_condition};
ghost use Rattle.atspi_match.specs.Conditions.{IsCondition, IsNamespace, IsRule};
ghost use Rattle.atspi_match.specs.Grammar.{is_blank, is_plain, is_word_byte, IsWord, EndsItem, IsPart, part_text};
ghost use Rattle.atspi_match.specs.Grammar.{part_value};
ghost use Rattle.atspi_match.specs.Grammar.{quoted, escaped, plain, spelling, value_of, item_text, item_value};
ghost use Rattle.atspi_match.specs.Grammar.{IsItem, with_commas, AreJoined, Spells, IsRuleText};
ghost use Rattle.atspi_match.specs.Printed.{printed};
ghost use Rattle.atspi_match.specs.RuleFaults.{FirstRuleFault, IsNoValue};
ghost use Rattle.atspi_bus_examples.specs.Items.{type_signal, arg_it_s, four_quoted, four_plain, one_of_each};

use atspi_match::{Condition, MessageType};

/// Blanks are the space and the tab; a key has neither `=` nor `,` and begins with no blank; an item ends at a comma
/// or where nothing is left.
pub fn words()
    ensures space { is_blank 32 ≡ true }
    ensures tab { is_blank 9 ≡ true }
    ensures no_line { is_blank 10 ≡ false }
    ensures letter { is_word_byte 97 ≡ true }
    ensures no_equals { is_word_byte 61 ≡ false }
    ensures no_comma { is_word_byte 44 ≡ false }
    ensures blank_inside { IsWord (codes "a b") }
    ensures blank_first { IsWord (codes " ab") → ⊥ }
    ensures equals_inside { IsWord (codes "a=b") → ⊥ }
    ensures at_comma { EndsItem (codes ",b") }
    ensures at_end { EndsItem [] }
    ensures at_letter { EndsItem (codes "b,") → ⊥ }
{}

/// A value is spelled in parts: bytes in apostrophes, where a backslash stands for itself; `\'` outside of them for an
/// apostrophe; and other bytes for themselves, a backslash too where no apostrophe follows, but no comma.
pub fn parts()
    ensures in_apostrophes { part_text (quoted (codes "a,b")) ≡ codes "'a,b'" }
    ensures stands_for { part_value (quoted (codes "a,b")) ≡ codes "a,b" }
    ensures escape { part_text escaped ≡ codes "\\'" }
    ensures apostrophe { part_value escaped ≡ codes "'" }
    ensures itself { part_text (plain 97) ≡ codes "a" }
    ensures quoted_backslash { IsPart (quoted (codes "a\\,b")) [] }
    ensures quoted_apostrophe { IsPart (quoted (codes "a'b")) [] → ⊥ }
    ensures plain_letter { IsPart (plain 97) (codes "'") }
    ensures plain_backslash { IsPart (plain 92) (codes "a") }
    ensures plain_backslash_last { IsPart (plain 92) [] }
    ensures backslash_before_apostrophe { IsPart (plain 92) (codes "'") → ⊥ }
    ensures plain_comma { IsPart (plain 44) [] → ⊥ }
    ensures plain_apostrophe { IsPart (plain 39) [] → ⊥ }
    ensures stands_anywhere { is_plain 97 ≡ true }
    ensures apostrophe_never { is_plain 39 ≡ false }
    ensures comma_never { is_plain 44 ≡ false }
    ensures backslash_not_anywhere { is_plain 92 ≡ false }
    ensures specification { value_of (quoted [] ∷ escaped ∷ quoted [] ∷ []) ≡ codes "'" }
    ensures spelled_so { spelling (quoted [] ∷ escaped ∷ quoted [] ∷ []) ≡ codes "''\\'''" }
    ensures mixed { value_of (plain 97 ∷ quoted (codes "b,c") ∷ escaped ∷ []) ≡ codes "ab,c'" }
    ensures mixed_text { spelling (plain 97 ∷ quoted (codes "b,c") ∷ escaped ∷ []) ≡ codes "a'b,c'\\'" }
{}

/// An item is a key, `=` and a value behind blanks; items are joined by commas, and one more may follow the last.
pub fn items()
    ensures text { item_text type_signal ≡ codes " type='signal'" }
    ensures value { item_value type_signal ≡ codes "signal" }
    ensures escape_text { item_text arg_it_s ≡ codes "arg0=it\\'s" }
    ensures escape_value { item_value arg_it_s ≡ codes "it's" }
    ensures two { with_commas (type_signal ∷ arg_it_s ∷ []) ≡ codes " type='signal',arg0=it\\'s," }
    ensures joined { AreJoined (type_signal ∷ arg_it_s ∷ []) (codes " type='signal',arg0=it\\'s") }
    ensures comma_behind { AreJoined (type_signal ∷ arg_it_s ∷ []) (codes " type='signal',arg0=it\\'s,") }
    ensures two_commas { AreJoined (type_signal ∷ []) (codes " type='signal',,") → ⊥ }
    ensures nothing { AreJoined [] [] }
    ensures comma_alone { AreJoined [] (codes ",") → ⊥ }
{}

/// Rules that are spelled: in apostrophes and without, with a comma behind the last item, and in any order.
pub fn spelled()
    ensures empty { IsRuleText [] [] }
    ensures in_apostrophes { IsRuleText (codes "type='signal'") (Condition.Kind MessageType.Signal ∷ []) }
    ensures without { IsRuleText (codes "type=signal") (Condition.Kind MessageType.Signal ∷ []) }
    ensures comma_behind { IsRuleText (codes "type=signal,") (Condition.Kind MessageType.Signal ∷ []) }
    ensures any_order { IsRuleText (codes "member=M, type=signal")
        (Condition.Kind MessageType.Signal ∷ Condition.Member (codes "M") ∷ []) }
    ensures not_the_second { IsRuleText (codes "member=M, type=signal")
        (Condition.Kind MessageType.Signal ∷ Condition.Member (codes "N") ∷ []) → ⊥ }
    ensures not_error { IsRuleText (codes "type=signal") (Condition.Kind MessageType.Error ∷ []) → ⊥ }
    ensures no_fault { IsRuleText (codes "type=signal") (Condition.Kind MessageType.Signal ∷ [])
        → FirstRuleFault (codes "type=signal") 0 1 → ⊥ }
{}

/// The specification's own example: two spellings of four arguments, whose values are `'`, `\`, `,` and `\\`.
pub fn of_the_specification()
    ensures in_apostrophes { AreJoined four_quoted (codes "arg0=''\\''',arg1='\\',arg2=',',arg3='\\\\'") }
    ensures without { AreJoined four_plain (codes "arg0=\\',arg1=\\,arg2=',',arg3=\\\\") }
    ensures lawful { AllByRecursion IsItem four_quoted }
    ensures lawful_without { AllByRecursion IsItem four_plain }
    ensures values { map item_value four_quoted ≡ codes "'" ∷ codes "\\" ∷ codes "," ∷ codes "\\\\" ∷ [] }
    ensures values_without { map item_value four_plain ≡ codes "'" ∷ codes "\\" ∷ codes "," ∷ codes "\\\\" ∷ [] }
{}

/// No `=` before the next comma or the end: fault 1, at the key, behind its blanks.
pub fn no_equals()
    ensures key_alone { FirstRuleFault (codes "type") 0 1 }
    ensures before_comma { FirstRuleFault (codes "type,member=M") 0 1 }
    ensures behind_blanks { FirstRuleFault (codes " \ttype") 2 1 }
    ensures blanks_alone { FirstRuleFault (codes "  ") 2 1 }
    ensures comma_first { FirstRuleFault (codes ",type=signal") 0 1 }
    ensures two_commas { FirstRuleFault (codes "type=signal,,") 12 1 }
    ensures not_two { FirstRuleFault (codes "type") 0 2 → ⊥ }
    ensures not_the_blank { FirstRuleFault (codes " \ttype") 0 1 → ⊥ }
{}

/// A key that is none: fault 2, at the key. Capitals count, there are 64 arguments, and their numbers have no zero in
/// front.
pub fn unknown_keys()
    ensures unknown { FirstRuleFault (codes "kind=signal") 0 2 }
    ensures behind_blanks { FirstRuleFault (codes "  kind=signal") 2 2 }
    ensures capital { FirstRuleFault (codes "Type=signal") 0 2 }
    ensures argument_64 { FirstRuleFault (codes "arg64=a") 0 2 }
    ensures two_zeros { FirstRuleFault (codes "arg00=a") 0 2 }
    ensures namespace_1 { FirstRuleFault (codes "arg1namespace=a") 0 2 }
    ensures empty { FirstRuleFault (codes "=signal") 0 2 }
    ensures blank_behind { FirstRuleFault (codes "type =signal") 0 2 }
    ensures before_its_value { FirstRuleFault (codes "kind='signal") 0 2 }
    ensures not_six { FirstRuleFault (codes "kind=signal") 0 6 → ⊥ }
{}

/// A key that stands before: fault 3, at the second one, even with the same value.
pub fn twice()
    ensures again { FirstRuleFault (codes "type=signal,type=error") 12 3 }
    ensures same { FirstRuleFault (codes "type=signal, type=signal") 13 3 }
    ensures before_its_value { FirstRuleFault (codes "type=signal,type='") 12 3 }
    ensures not_the_first { FirstRuleFault (codes "type=signal,type=error") 0 3 → ⊥ }
{}

/// A quoted part that is not closed: fault 4, at its apostrophe.
pub fn not_closed()
    ensures at_value { FirstRuleFault (codes "member='M") 7 4 }
    ensures inside { FirstRuleFault (codes "member=M'") 8 4 }
    ensures second { FirstRuleFault (codes "member='M''") 10 4 }
    ensures comma_within { FirstRuleFault (codes "member='M,type=signal") 7 4 }
    ensures behind_an_item { FirstRuleFault (codes "type=signal,member='") 19 4 }
    ensures not_the_key { FirstRuleFault (codes "member='M") 0 4 → ⊥ }
    ensures not_an_escaped_one { FirstRuleFault (codes "arg0=\\'") 6 4 → ⊥ }
{}

/// No such type: fault 5, at the value.
pub fn bad_types()
    ensures unknown { FirstRuleFault (codes "type=signals") 5 5 }
    ensures capital { FirstRuleFault (codes "type=Signal") 5 5 }
    ensures empty { FirstRuleFault (codes "type=") 5 5 }
    ensures not_six { FirstRuleFault (codes "type=signals") 5 6 → ⊥ }
    ensures none_named_type { IsNoValue (codes "type") (codes "type") }
    ensures not_signal { IsNoValue (codes "type") (codes "signal") → ⊥ }
{}

/// A value that its key may not have: fault 6, at the value.
pub fn bad_values()
    ensures member { FirstRuleFault (codes "member=a.b") 7 6 }
    ensures path { FirstRuleFault (codes "path=a") 5 6 }
    ensures eavesdrop { FirstRuleFault (codes "eavesdrop=yes") 10 6 }
    ensures not_five { FirstRuleFault (codes "member=a.b") 7 5 → ⊥ }
{}

/// Both `path` and `path_namespace`, in either order: fault 7, at the second one.
pub fn both_paths()
    ensures namespace_second { FirstRuleFault (codes "path=/,path_namespace=/") 7 7 }
    ensures path_second { FirstRuleFault (codes "path_namespace=/,path=/") 17 7 }
    ensures not_the_first { FirstRuleFault (codes "path=/,path_namespace=/") 0 7 → ⊥ }
{}

/// A rule has 1,024 bytes at most: at one more, fault 8 at 1,024.
pub fn long()
    ensures most { (bytes : List ℕ) (rule : List Condition) → Spells bytes rule → length bytes ≡ 1024
        → IsRuleText bytes rule }
    ensures one_more { (bytes : List ℕ) (rule : List Condition) → Spells bytes rule → length bytes ≡ 1025
        → FirstRuleFault bytes 1024 8 }
    ensures no_text { (bytes : List ℕ) (rule : List Condition) → length bytes ≡ 1025 → IsRuleText bytes rule → ⊥ }
{}

/// The keys in their order, each with its value: 64 arguments, and 64 that are paths.
pub fn keys()
    ensures keys { map key_text one_of_each
        ≡ codes "type" ∷ codes "sender" ∷ codes "interface" ∷ codes "member" ∷ codes "path" ∷ codes "path_namespace"
        ∷ codes "destination" ∷ codes "arg0" ∷ codes "arg63" ∷ codes "arg0path" ∷ codes "arg63path"
        ∷ codes "arg0namespace" ∷ codes "eavesdrop" ∷ [] }
    ensures order { map rank one_of_each ≡ 0 ∷ 1 ∷ 2 ∷ 3 ∷ 4 ∷ 5 ∷ 6 ∷ 7 ∷ 70 ∷ 71 ∷ 134 ∷ 135 ∷ 136 ∷ [] }
    ensures values { map value_text one_of_each
        ≡ codes "signal" ∷ codes ":1.0" ∷ codes "a.b" ∷ codes "M" ∷ codes "/" ∷ codes "/p" ∷ codes "c.d" ∷ codes "x"
        ∷ codes "y" ∷ codes "/q/" ∷ codes "z" ∷ codes "e" ∷ codes "true" ∷ [] }
    ensures types { map type_text
        (MessageType.Signal ∷ MessageType.MethodCall ∷ MessageType.MethodReturn ∷ MessageType.Error ∷ [])
        ≡ codes "signal" ∷ codes "method_call" ∷ codes "method_return" ∷ codes "error" ∷ [] }
    ensures untrue { bool_text false ≡ codes "false" }
    ensures argument_64 { IsCondition (Condition.Arg 64 (codes "x")) → ⊥ }
    ensures path_64 { IsCondition (Condition.ArgPath 64 (codes "x")) → ⊥ }
    ensures last_argument { IsCondition (Condition.Arg 63 (codes "x")) }
    ensures last_path { IsCondition (Condition.ArgPath 63 (codes "x")) }
{}

/// Rules: their keys rise, none twice, and not both `path` and `path_namespace`, though each of them beside others.
pub fn rules()
    ensures path { IsRule (Condition.Path (codes "/") ∷ Condition.Destination (codes "a.b") ∷ []) }
    ensures namespace { IsRule (Condition.PathNamespace (codes "/") ∷ Condition.Destination (codes "a.b") ∷ []) }
    ensures both { IsRule (Condition.Path (codes "/") ∷ Condition.PathNamespace (codes "/") ∷ []) → ⊥ }
    ensures falling { IsRule (Condition.Member (codes "M") ∷ Condition.Kind MessageType.Signal ∷ []) → ⊥ }
    ensures twice { IsRule (Condition.Kind MessageType.Signal ∷ Condition.Kind MessageType.Error ∷ []) → ⊥ }
    ensures longest_namespace { (bytes : List ℕ) → IsElement forms.WellKnown bytes → length bytes ≡ 255
        → IsNamespace bytes }
    ensures too_long_a_namespace { (bytes : List ℕ) → length bytes ≡ 256 → IsNamespace bytes → ⊥ }
{}

/// Two conditions are the same where they have one key and one value, however that is kept.
pub fn sameness()
    ensures same { same_condition (Condition.Member (codes "M")) (Condition.Member (codes "M")) ≡ true }
    ensures other_value { same_condition (Condition.Member (codes "M")) (Condition.Member (codes "N")) ≡ false }
    ensures other_key { same_condition (Condition.Sender (codes "a.b")) (Condition.Destination (codes "a.b")) ≡ false }
{}

/// A rule is printed with each value in apostrophes; an apostrophe in it stands outside of them, behind a backslash.
pub fn prints()
    ensures two { printed (Condition.Kind MessageType.Signal ∷ Condition.Member (codes "it's") ∷ [])
        ≡ codes "type='signal',member='it'\\''s'" }
    ensures none { printed [] ≡ [] }
{}
