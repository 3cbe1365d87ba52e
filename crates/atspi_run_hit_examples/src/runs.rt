//! What a whole input comes to, and how a refusal is told.

ghost use Rattle.std.specs.Prelude.{◌≡◌, ◌∷◌, ◌++◌, [], ℕ, List, None, IsUtf8, codes, length};
ghost use Rattle.atspi_tree_model.specs.declared.edit.EditFault.TheVariants as faults;
ghost use Rattle.atspi_run_hit.specs.Names.{refused_text};
ghost use Rattle.atspi_hit.specs.Places.{no_rect};
ghost use Rattle.atspi_run_hit.specs.Run.{FrontText, IsHitStatus, IsRefused, IsText, RefusedText};
ghost use Rattle.atspi_run_hit.specs.Words.{SpellsLine};
ghost use Rattle.atspi_run_hit.specs.declared.line.HitLine.TheVariants as lines;
ghost use Rattle.atspi_run_hit.specs.declared.naming.Refused.TheVariants.{Asked, Form, Long, NotUtf8};
ghost use Rattle.atspi_run_hit_examples.specs.Room.{room};
ghost use Rattle.atspi_run_input.specs.declared.input.TheConstants.{INPUT_LIMIT};

/// `refused LINE NAME`, for each name.
pub fn names()
    ensures long { refused_text 1 Long ≡ codes "refused 1 Long" ++ 10 ∷ [] }
    ensures not_utf8 { refused_text 12 NotUtf8 ≡ codes "refused 12 NotUtf8" ++ 10 ∷ [] }
    ensures form { refused_text 1 Form ≡ codes "refused 1 Form" ++ 10 ∷ [] }
    ensures no_node { refused_text 1 (Asked faults.NoNode) ≡ codes "refused 1 NoNode" ++ 10 ∷ [] }
    ensures is_root { refused_text 1 (Asked faults.IsRoot) ≡ codes "refused 1 IsRoot" ++ 10 ∷ [] }
    ensures no_face { refused_text 1 (Asked faults.NoFace) ≡ codes "refused 1 NoFace" ++ 10 ∷ [] }
    ensures bad_index { refused_text 1 (Asked faults.BadIndex) ≡ codes "refused 1 BadIndex" ++ 10 ∷ [] }
    ensures bad_offset { refused_text 1 (Asked faults.BadOffset) ≡ codes "refused 1 BadOffset" ++ 10 ∷ [] }
    ensures cycle { refused_text 1 (Asked faults.Cycle) ≡ codes "refused 1 Cycle" ++ 10 ∷ [] }
    ensures full { refused_text 1 (Asked faults.Full) ≡ codes "refused 1 Full" ++ 10 ∷ [] }
    ensures text_full { refused_text 1 (Asked faults.TextFull) ≡ codes "refused 1 TextFull" ++ 10 ∷ [] }
{}

/// The statuses, and no others; and the limit of an input.
pub fn statuses()
    ensures whole { IsHitStatus 0 }
    ensures refused { IsHitStatus 1 }
    ensures not_2 { IsHitStatus 2 → ⊥ }
    ensures read { IsHitStatus 3 }
    ensures write { IsHitStatus 4 }
    ensures memory { IsHitStatus 5 }
    ensures not_6 { IsHitStatus 6 → ⊥ }
    ensures not_7 { IsHitStatus 7 → ⊥ }
    ensures limit { IsHitStatus 8 }
    ensures not_9 { IsHitStatus 9 → ⊥ }
    ensures not_13 { IsHitStatus 13 → ⊥ }
    ensures input { INPUT_LIMIT ≡ 16777216 }
{}

/// No lines write nothing, and have no refusal. A line may be too long, no UTF-8, or one that may not stand there.
pub fn none()
    ensures text { IsText [] [] }
    ensures no_text { (b : ℕ) (bytes : List ℕ) → IsText [] (b ∷ bytes) → ⊥ }
    ensures no_refusal { (text : List ℕ) → RefusedText [] text → ⊥ }
    ensures front { FrontText (codes "x" ∷ []) [] }
    ensures long { (bytes : List ℕ) → length bytes ≡ 65537 → IsRefused None bytes Long }
    ensures not_long { (bytes : List ℕ) → length bytes ≡ 65536 → IsRefused None bytes Long → ⊥ }
    ensures utf8 { (bytes : List ℕ) → IsUtf8 bytes → IsRefused None bytes NotUtf8 → ⊥ }
    ensures form { (bytes : List ℕ) → SpellsLine (lines.Follow 0 1) bytes → IsRefused None bytes Form }
    ensures asked { (bytes : List ℕ) → SpellsLine (lines.Place 7 no_rect) bytes
        → IsRefused room bytes (Asked faults.NoNode) }
{}
