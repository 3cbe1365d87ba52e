//! Whole calls: by path, interface, member and body.

ghost use Rattle.std.specs.Prelude.{◌≡◌, ◌∷◌, [], None, Some, pos, negsuc, true, false, codes};
ghost use Rattle.atspi_types.specs.Kinds.{number, i32, u32, text, variant};
ghost use Rattle.atspi_types.specs.Data.{boolean_data, text_data, variant_data, array_data, dictionary_data};
ghost use Rattle.atspi_types.specs.Data.{structure_data, number_data, items_of, entries_of};
ghost use Rattle.atspi_tree_model.specs.Forest.{nil, tree};
ghost use Rattle.atspi_protocol.specs.ends.Places.{reference};
ghost use Rattle.atspi_protocol.specs.ends.Messages.{returns, fails};
ghost use Rattle.atspi_protocol.specs.members.Arguments.{int};
ghost use Rattle.atspi_protocol.specs.objects.Values.{in_variant, item_kind, texts_data, words_data};
ghost use Rattle.atspi_protocol.specs.objects.Answers.{answer};
ghost use Rattle.atspi_protocol.specs.objects.Cases.{app, root, button, two, to, written};

use atspi_tree_model::Step;

/// What is at a path, and what is at none.
#[tactic(auto, unfolding(atspi_tree_model::specs::Path::path_of))]
pub fn paths()
    ensures entry { (answer app (codes "/org/a11y/atspi/accessible/5") (Some (codes "org.a11y.atspi.Text"))
        (Some (codes "GetText")) (two (pos 3) (negsuc 0))).reply ≡ returns (text_data (codes "lo") ∷ []) }
    ensures root { (answer app (codes "/org/a11y/atspi/accessible/root") None (Some (codes "Ping")) []).reply
        ≡ returns [] }
    ensures two_digits { (answer app (codes "/org/a11y/atspi/accessible/12") None (Some (codes "GetKeyBinding"))
        (int (pos 0) ∷ [])).reply ≡ returns (text_data [] ∷ []) }
    ensures leading_zero { (answer app (codes "/org/a11y/atspi/accessible/05") None (Some (codes "Ping")) []).reply
        ≡ fails (codes "UnknownObject") }
    ensures zero { (answer app (codes "/org/a11y/atspi/accessible/0") None (Some (codes "Ping")) []).reply
        ≡ fails (codes "UnknownObject") }
    ensures gone { (answer app (codes "/org/a11y/atspi/accessible/99") None (Some (codes "Ping")) []).reply
        ≡ fails (codes "UnknownObject") }
    ensures elsewhere { (answer app (codes "/x") None (Some (codes "Ping")) []).reply ≡ fails (codes "UnknownObject") }
    ensures no_text { (answer app (codes "/org/a11y/atspi/accessible/12") (Some (codes "org.a11y.atspi.Text"))
        (Some (codes "GetText")) (two (pos 0) (pos 1))).reply ≡ fails (codes "UnknownInterface") }
    ensures changes { (answer app (codes "/org/a11y/atspi/accessible/12") None (Some (codes "DoAction"))
        (int (pos 0) ∷ [])).steps ≡ Step.SetState 12 4 false ∷ [] }
{}

/// Properties are got in a variant, all of an interface in a dictionary; the number of the application is set.
#[tactic(auto, unfolding(atspi_tree_model::specs::Path::path_of))]
pub fn properties()
    ensures get { (answer app (codes "/org/a11y/atspi/accessible/12") None (Some (codes "Get"))
        (text_data (codes "org.a11y.atspi.Action") ∷ text_data (codes "NActions") ∷ [])).reply
        ≡ returns (variant_data (number i32) (int (pos 2)) ∷ []) }
    ensures get_all { (answer app (codes "/org/a11y/atspi/accessible/5") None (Some (codes "GetAll"))
        (written (codes "org.a11y.atspi.Text"))).reply
        ≡ returns
        (dictionary_data text variant
        (entries_of
        ((text_data (codes "CharacterCount"), in_variant (int (pos 5)))
        ∷ (text_data (codes "CaretOffset"), in_variant (int (pos 3))) ∷ [])) ∷ []) }
    ensures set { (answer app (codes "/org/a11y/atspi/accessible/root") None (Some (codes "Set"))
        (text_data (codes "org.a11y.atspi.Application") ∷ text_data (codes "Id") ∷ in_variant (int (negsuc 4))
        ∷ [])).id ≡ negsuc 4 }
    ensures set_told { (answer app (codes "/org/a11y/atspi/accessible/root") None (Some (codes "Set"))
        (text_data (codes "org.a11y.atspi.Application") ∷ text_data (codes "Id") ∷ in_variant (int (negsuc 4))
        ∷ [])).reply ≡ returns [] }
    ensures set_name { (answer app (codes "/org/a11y/atspi/accessible/root") None (Some (codes "Set"))
        (text_data (codes "org.a11y.atspi.Accessible") ∷ text_data (codes "Name") ∷ in_variant (text_data [])
        ∷ [])).reply ≡ fails (codes "PropertyReadOnly") }
    ensures kept { (answer app (codes "/org/a11y/atspi/accessible/root") None (Some (codes "GetRole")) []).id ≡ pos 7 }
    ensures none { (answer app (codes "/org/a11y/atspi/cache") None (Some (codes "Get"))
        (text_data (codes "org.a11y.atspi.Cache") ∷ text_data (codes "Name") ∷ [])).reply
        ≡ fails (codes "UnknownProperty") }
    ensures empty { (answer app (codes "/org/a11y/atspi/cache") None (Some (codes "GetAll"))
        (written (codes "org.a11y.atspi.Cache"))).reply
        ≡ returns (dictionary_data text variant (entries_of []) ∷ []) }
    ensures cache_ping { (answer app (codes "/org/a11y/atspi/cache") None (Some (codes "Ping")) []).reply ≡ returns [] }
{}

/// The items of all nodes.
pub fn items()
    ensures all { (answer (record app { tree = tree root (tree button nil nil) nil }) (codes "/org/a11y/atspi/cache")
        None (Some (codes "GetItems")) []).reply
        ≡ returns (array_data item_kind (items_of (
        structure_data
        (items_of
        (to 0 ∷ to 0 ∷ reference (codes "org.a11y.atspi.Registry") (codes "/org/a11y/atspi/accessible/root")
        ∷ int (negsuc 0) ∷ int (pos 1)
        ∷ texts_data (codes "org.a11y.atspi.Accessible" ∷ codes "org.a11y.atspi.Application" ∷ [])
        ∷ text_data (codes "T") ∷ number_data u32 75 ∷ text_data [] ∷ words_data 1124073728 ∷ []))
        ∷ structure_data (items_of (to 12 ∷ to 0 ∷ to 0 ∷ int (pos 0) ∷ int (pos 0)
        ∷ texts_data (codes "org.a11y.atspi.Accessible" ∷ codes "org.a11y.atspi.Action" ∷ []) ∷ text_data []
        ∷ number_data u32 117 ∷ text_data [] ∷ words_data 16 ∷ []))
        ∷ [])) ∷ []) }
{}
