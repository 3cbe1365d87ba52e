//! What is due to be spoken at the steps of a tree, and which item of a news adds a node: cases beside those of
//! `atspi_speech`.

ghost use Rattle.std.specs.Prelude.{◌≡◌, [], ◌∷◌, None, Some, true, false, codes};
ghost use Rattle.atspi_tree_model.specs.Forest.{nil};
ghost use Rattle.atspi_speech.specs.Cases.{item, row};
ghost use Rattle.atspi_speech.specs.Looked.{adds};
ghost use Rattle.atspi_speech.specs.Speech.{closing_says, says};
ghost use Rattle.atspi_speech.specs.Words.{is_plain};
ghost use Rattle.atspi_examples.specs.Room.{plain};
ghost use Rattle.atspi_examples.specs.Spoken.{window_tree};

use atspi_tree_model::Step;

/// What is due at a step of a tree with a root and the focused node 1.
pub fn due()
    ensures alert { says window_tree (Step.Add 2 0 1 (plain 2 (codes "Saved"))) ≡ codes "alert: Saved" ∷ [] }
    ensures no_alert { says window_tree (Step.Add 2 0 1 (plain 7 (codes "Saved"))) ≡ [] }
    ensures name { says window_tree (Step.SetName 1 (codes "New")) ≡ codes "New" ∷ [] }
    ensures unfocused { says window_tree (Step.SetName 0 (codes "New")) ≡ [] }
    ensures unknown { says window_tree (Step.SetName 2 (codes "New")) ≡ [] }
    ensures state { says window_tree (Step.SetState 1 4 true) ≡ codes "checked" ∷ [] }
    ensures no_state { says window_tree (Step.SetState 1 4 false) ≡ codes "not checked" ∷ [] }
    ensures focus_goes { says window_tree (Step.SetState 1 12 false) ≡ [] }
    ensures typed { says window_tree (Step.Insert 1 0 (codes "hi")) ≡ codes "typed: hi" ∷ [] }
    ensures typed_elsewhere { says window_tree (Step.Insert 0 1 (codes "hi")) ≡ [] }
    ensures deleted { says window_tree (Step.Delete 1 0 (codes "hi")) ≡ codes "deleted: hi" ∷ [] }
    ensures deleted_elsewhere { says window_tree (Step.Delete 0 1 (codes "hi")) ≡ [] }
    ensures role { says window_tree (Step.SetRole 1 2) ≡ [] }
    ensures caret { says window_tree (Step.Caret 1 0) ≡ [] }
    ensures removed { says window_tree (Step.Remove 1) ≡ [] }
    ensures closed { closing_says window_tree ≡ codes "Demo, closed" ∷ [] }
    ensures no_root { closing_says nil ≡ codes ", closed" ∷ [] }
{}

/// The focus line that is due is of the node as it is with the focus.
#[tactic(auto, unfolding(atspi_tables::specs::Roles::role_names))]
pub fn focus_due()
    ensures { says window_tree (Step.SetState 0 12 true) ≡ codes "Demo, application" ∷ [] }
{}

/// Which item adds a node, told from the row of its path and from whether its parent is known.
pub fn additions()
    ensures added { adds (codes "/r") (codes ":1.7") None true
        (item [] 7 (codes ":1.7") (codes "/b") (codes ":1.7") (codes "/a")) ≡ true }
    ensures known { adds (codes "/r") (codes ":1.7") (Some (row (codes "/b") [] 7 0)) true
        (item [] 7 (codes ":1.7") (codes "/b") (codes ":1.7") (codes "/a")) ≡ false }
    ensures no_parent { adds (codes "/r") (codes ":1.7") None false
        (item [] 7 (codes ":1.7") (codes "/b") (codes ":1.7") (codes "/a")) ≡ false }
    ensures foreign { adds (codes "/r") (codes ":1.7") None true
        (item [] 7 (codes ":1.8") (codes "/b") (codes ":1.7") (codes "/a")) ≡ false }
    ensures foreign_parent { adds (codes "/r") (codes ":1.7") None true
        (item [] 7 (codes ":1.7") (codes "/b") (codes ":1.8") (codes "/a")) ≡ false }
    ensures root { adds (codes "/b") (codes ":1.7") None true
        (item [] 7 (codes ":1.7") (codes "/b") (codes ":1.7") (codes "/a")) ≡ false }
{}

/// Words of ASCII.
pub fn plain_words()
    ensures none { is_plain [] ≡ true }
    ensures ends { is_plain (1 ∷ 127 ∷ []) ≡ true }
    ensures zero { is_plain (97 ∷ 0 ∷ []) ≡ false }
    ensures behind { is_plain (97 ∷ 128 ∷ []) ≡ false }
{}
