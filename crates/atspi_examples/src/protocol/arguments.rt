//! Arguments that are missing, or of another type than is asked for.

ghost use Rattle.std.specs.Prelude.{◌≡◌, ◌∷◌, [], None, Some, pos, negsuc, codes};
ghost use Rattle.atspi_tree_model.specs.declared.news.News.TheVariants.{Nothing};
ghost use Rattle.atspi_types.specs.Kinds.{i32, u32};
ghost use Rattle.atspi_types.specs.Data.{text_data, path_data, number_data, variant_data, type_of};
ghost use Rattle.atspi_protocol.specs.ends.Places.{reference, references};
ghost use Rattle.atspi_protocol.specs.members.Arguments.{signed_at, text_at, value_at};
ghost use Rattle.atspi_protocol.specs.news.Arguments.{number_in, reference_in, reference_of, text_in, then_end};
ghost use Rattle.atspi_protocol.specs.news.Replies.{elements_of, items_among};
ghost use Rattle.atspi_protocol.specs.following.Known.{child_added, references_among};

/// An argument of a call behind the last one, and one of another type, is read as empty or 0.
pub fn missing()
    ensures text { text_at 1 (text_data (codes "a") ∷ text_data (codes "b") ∷ []) ≡ codes "b" }
    ensures no_text { text_at 1 (text_data (codes "a") ∷ []) ≡ [] }
    ensures number_as_text { text_at 0 (number_data i32 5 ∷ []) ≡ [] }
    ensures number { signed_at 0 (number_data i32 5 ∷ []) ≡ pos 5 }
    ensures negative { signed_at 0 (number_data i32 4294967295 ∷ []) ≡ negsuc 0 }
    ensures no_number { signed_at 1 (number_data i32 5 ∷ []) ≡ pos 0 }
    ensures unsigned { signed_at 0 (number_data u32 5 ∷ []) ≡ pos 0 }
    ensures value { value_at 0 (variant_data (type_of (number_data i32 5)) (number_data i32 5) ∷ [])
        ≡ Some (number_data i32 5) }
    ensures no_value { value_at 0 (number_data i32 5 ∷ []) ≡ None }
    ensures behind { value_at 1 (variant_data (type_of (number_data i32 5)) (number_data i32 5) ∷ []) ≡ None }
{}

/// A reference is a text and a path, and no more; elements of lists that are none are left out, and a body that is no
/// list has none.
pub fn misread()
    ensures reference { reference_of (text_data (codes ":1.7") ∷ path_data (codes "/a") ∷ [])
        ≡ Some (record { bus = codes ":1.7"; path = codes "/a" }) }
    ensures text_path { reference_of (text_data (codes ":1.7") ∷ text_data (codes "/a") ∷ []) ≡ None }
    ensures more { reference_of (text_data (codes ":1.7") ∷ path_data (codes "/a") ∷ text_data [] ∷ []) ≡ None }
    ensures no_structure { reference_in (path_data (codes "/a")) ≡ None }
    ensures behind { then_end (codes "a") (text_data [] ∷ []) ≡ None }
    ensures last { then_end (codes "a") [] ≡ Some (codes "a") }
    ensures text { text_in (text_data (codes "a")) ≡ codes "a" }
    ensures no_text { text_in (number_data u32 5) ≡ [] }
    ensures number { number_in (number_data u32 5) ≡ 5 }
    ensures no_number { number_in (number_data i32 5) ≡ 0 }
    ensures elements { elements_of (references ((codes ":1.7", codes "/a") ∷ []) ∷ [])
        ≡ reference (codes ":1.7") (codes "/a") ∷ [] }
    ensures no_list { elements_of (text_data [] ∷ []) ≡ [] }
    ensures two_lists { elements_of (references [] ∷ references [] ∷ []) ≡ [] }
    ensures among { references_among (text_data [] ∷ reference (codes ":1.7") (codes "/a") ∷ number_data u32 1 ∷ [])
        ≡ record { bus = codes ":1.7"; path = codes "/a" } ∷ [] }
    ensures no_items { items_among (text_data [] ∷ reference (codes ":1.7") (codes "/a") ∷ []) ≡ [] }
    ensures no_event { child_added None ≡ None }
{}
