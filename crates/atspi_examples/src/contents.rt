//! What may be asked of a node's contents and changed in them: cases beside those of `atspi_faces::face`.

ghost use Rattle.std.specs.Prelude.{[], ◌∷◌};
ghost use Rattle.atspi_tree_model.specs.declared.contents.FaceData.TheVariants.{Chars};
ghost use Rattle.atspi_faces.specs.declared.face.change.Change.TheVariants.{Delete};
ghost use Rattle.atspi_faces.specs.face.Contents.{IsChange, IsPart};
ghost use Rattle.atspi_faces.specs.face.Examples.{actions, hello, short};

/// The name of an action is asked for by its place alone; a part of a text does not end before it begins.
pub fn parts()
    ensures name { IsPart actions 1 5 }
    ensures no_name { ¬ IsPart actions 2 0 }
    ensures backwards { ¬ IsPart hello 4 3 }
{}

/// A deletion ends in the text, wherever the caret stands, and of nothing it may stand at the text's end.
pub fn deletions()
    ensures partly { ¬ IsChange (Chars (97 ∷ 98 ∷ []) 0 []) (Delete 1 2) }
    ensures nothing { IsChange short (Delete 0 0) }
    ensures nothing_at_end { IsChange short (Delete 2 0) }
{}
