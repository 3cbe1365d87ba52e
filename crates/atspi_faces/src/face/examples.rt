//! Worked examples of the definitions: what they say of small texts, a table and two actions, and of two nodes with
//! texts.

ghost use Rattle.std.specs.Prelude.{◌≡◌, [], ◌∷◌, Some, None, codes};
ghost use Rattle.std.specs.FinMap.{get};
ghost use Rattle.atspi_tree_model.specs.declared.contents.FaceData.TheVariants.{Chars, Grid, Deeds};
ghost use Rattle.atspi_tree_model.specs.declared.contents.FaceKind.TheVariants.{Chars as chars_kind, Grid as grid_kind};
ghost use Rattle.atspi_tree_model.specs.declared.contents.FaceKind.TheVariants.{Deeds as deeds_kind};
ghost use Rattle.atspi_faces.specs.declared.face.change.Change.TheVariants.{Insert, Delete, Caret, Marks};
ghost use Rattle.atspi_faces.specs.face.Contents.{kind_of, count_of, caret_of, marks_of, part_of, changed, IsPart};
ghost use Rattle.atspi_faces.specs.face.Contents.{IsChange, IsContents, TakesMemory};
ghost use Rattle.atspi_faces.specs.face.Nodes.{count_at, caret_at, marks_at, part_at, changed_at, HasText, HasPart};
ghost use Rattle.atspi_faces.specs.face.Nodes.{CanChange, IsNext};
ghost use Rattle.atspi_faces.specs.face.Examples.{hello, short, columns, actions, two};

/// Contents tell their kind and how much there is; a text has a caret and text selections.
pub fn what_contents_tell()
    ensures text_kind { kind_of hello ≡ chars_kind }
    ensures table_kind { kind_of columns ≡ grid_kind }
    ensures actions_kind { kind_of actions ≡ deeds_kind }
    ensures characters { count_of hello ≡ 5 }
    ensures columns { count_of columns ≡ 3 }
    ensures actions { count_of actions ≡ 2 }
    ensures caret { caret_of hello ≡ 2 }
    ensures no_caret { caret_of columns ≡ 0 }
    ensures nor_caret { caret_of actions ≡ 0 }
    ensures marks { marks_of hello ≡ (1, 3) ∷ [] }
    ensures no_marks { marks_of columns ≡ [] }
    ensures nor_marks { marks_of actions ≡ [] }
{}

/// A part of a text is characters from one place up to another; a part of actions is one name.
pub fn parts()
    ensures text { part_of hello 1 4 ≡ 233 ∷ 108 ∷ 108 ∷ [] }
    ensures empty { part_of hello 5 5 ≡ [] }
    ensures table { part_of columns 0 1 ≡ [] }
    ensures name { part_of actions 1 0 ≡ codes "press" }
{}

/// An insertion and a deletion empty the text selections and leave the caret; a caret and text selections are replaced.
pub fn changes()
    ensures insert { changed hello (Insert 1 (120 ∷ 121 ∷ []))
        ≡ Chars (104 ∷ 120 ∷ 121 ∷ 233 ∷ 108 ∷ 108 ∷ 111 ∷ []) 2 [] }
    ensures delete { changed hello (Delete 1 3) ≡ Chars (104 ∷ 111 ∷ []) 2 [] }
    ensures caret { changed hello (Caret 5) ≡ Chars (104 ∷ 233 ∷ 108 ∷ 108 ∷ 111 ∷ []) 5 ((1, 3) ∷ []) }
    ensures marks { changed hello (Marks ((0, 1) ∷ (4, 5) ∷ []))
        ≡ Chars (104 ∷ 233 ∷ 108 ∷ 108 ∷ 111 ∷ []) 2 ((0, 1) ∷ (4, 5) ∷ []) }
    ensures table { changed columns (Caret 1) ≡ Grid 3 }
    ensures actions { changed actions (Delete 0 1) ≡ Deeds (codes "click" ∷ codes "press" ∷ []) }
{}

/// A part is between two places of a text, or is the name of an action that is there.
pub fn what_may_be_asked()
    ensures inside { IsPart hello 1 4 }
    ensures at_the_end { IsPart hello 5 5 }
    ensures backwards { ¬ IsPart hello 4 3 }
    ensures beyond { ¬ IsPart hello 4 6 }
    ensures table { ¬ IsPart columns 0 0 }
    ensures name { IsPart actions 1 0 }
    ensures no_name { ¬ IsPart actions 2 3 }
{}

/// A change is inside the text, and leaves the caret inside.
pub fn what_may_be_changed()
    ensures insert { IsChange hello (Insert 5 []) }
    ensures insert_beyond { ¬ IsChange hello (Insert 6 []) }
    ensures delete { IsChange hello (Delete 2 3) }
    ensures delete_beyond { ¬ IsChange hello (Delete 3 3) }
    ensures caret_outside { ¬ IsChange short (Delete 0 1) }
    ensures caret { IsChange hello (Caret 5) }
    ensures caret_beyond { ¬ IsChange hello (Caret 6) }
    ensures marks { IsChange hello (Marks ((7, 9) ∷ [])) }
    ensures table { ¬ IsChange columns (Caret 0) }
    ensures actions { ¬ IsChange actions (Delete 0 0) }
{}

/// An insertion may want memory, and text selections of which there are some.
pub fn what_takes_memory()
    ensures insert { TakesMemory (Insert 0 []) }
    ensures delete { ¬ TakesMemory (Delete 0 1) }
    ensures caret { ¬ TakesMemory (Caret 1) }
    ensures marks { TakesMemory (Marks ((0, 1) ∷ [])) }
    ensures no_marks { ¬ TakesMemory (Marks []) }
{}

/// Contents are of their kind, with the caret at most at the end.
pub fn what_are_contents()
    ensures text { IsContents chars_kind hello }
    ensures caret_at_the_end { IsContents chars_kind short }
    ensures other_kind { ¬ IsContents grid_kind hello }
    ensures caret_outside { ¬ IsContents chars_kind (Chars (97 ∷ []) 2 []) }
    ensures most { IsContents grid_kind (Grid 4294967295) }
    ensures too_many { ¬ IsContents grid_kind (Grid 4294967296) }
{}

/// What is asked of a node is asked of its contents; a node that is not here has nothing.
pub fn at_nodes()
    ensures count { count_at two 3 ≡ 5 }
    ensures no_count { count_at two 4 ≡ 0 }
    ensures caret { caret_at two 3 ≡ 2 }
    ensures no_caret { caret_at two 4 ≡ 0 }
    ensures marks { marks_at two 3 ≡ (1, 3) ∷ [] }
    ensures no_marks { marks_at two 4 ≡ [] }
    ensures part { part_at two 7 1 2 ≡ 98 ∷ [] }
    ensures no_part { part_at two 4 0 0 ≡ [] }
    ensures changed { get (changed_at two 3 (Caret 5)) 3
        ≡ Some (Chars (104 ∷ 233 ∷ 108 ∷ 108 ∷ 111 ∷ []) 5 ((1, 3) ∷ [])) }
    ensures others { get (changed_at two 3 (Caret 5)) 7 ≡ Some short }
    ensures not_here { get (changed_at two 4 (Caret 0)) 4 ≡ None }
{}

/// What may be asked of a node is what may be asked of its contents; of a node that is not here nothing may.
pub fn what_nodes_may_be_asked()
    ensures text { HasText two 3 }
    ensures no_text { ¬ HasText two 4 }
    ensures part { HasPart two 7 1 2 }
    ensures no_part { ¬ HasPart two 7 1 3 }
    ensures part_of_none { ¬ HasPart two 4 0 0 }
    ensures change { CanChange two 7 (Caret 2) }
    ensures no_change { ¬ CanChange two 7 (Caret 3) }
    ensures change_of_none { ¬ CanChange two 4 (Caret 0) }
{}

/// The next node is the least that is not before a number.
pub fn next_nodes()
    ensures itself { IsNext two 3 (Some 3) }
    ensures least { IsNext two 4 (Some 7) }
    ensures none { IsNext two 8 None }
    ensures not_least { ¬ IsNext two 3 (Some 7) }
    ensures before { ¬ IsNext two 4 (Some 3) }
    ensures not_here { ¬ IsNext two 4 (Some 5) }
    ensures some { ¬ IsNext two 7 None }
{}
