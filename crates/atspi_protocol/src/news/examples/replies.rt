//! What the replies to a reader's own calls say.

ghost use Rattle.std.specs.Prelude.{◌≡◌, ◌∷◌, [], None, Some, pos, codes, map};
ghost use Rattle.std.specs.Option.{option_map};
ghost use Rattle.atspi_types.specs.Kinds.{i32, u32, number, text};
ghost use Rattle.atspi_types.specs.Data.{text_data, number_data, variant_data, array_data, items_of};
ghost use Rattle.atspi_tree_model.specs.declared.news.News.TheVariants.{TextIs, CaretIs, ColumnsIs};
ghost use Rattle.atspi_protocol.specs.declared.news.part.PartName.TheVariants.{Text, Caret, Columns};
ghost use Rattle.atspi_protocol.specs.news.Replies.{items_told, part_told};
ghost use Rattle.atspi_protocol.specs.news.Cases.{item, item_kind, returned, failed};

/// All items, none of them, or no list of items.
pub fn items()
    ensures one { option_map (map (λ i. i.name))
        (items_told (returned (array_data item_kind (items_of (item [] ∷ [])) ∷ []))) ≡ Some (codes "OK" ∷ []) }
    ensures two { option_map (map (λ i. i.name))
        (items_told (returned (array_data item_kind (items_of (item [] ∷ (item [] ∷ []))) ∷ [])))
        ≡ Some (codes "OK" ∷ (codes "OK" ∷ [])) }
    ensures none { items_told (returned (array_data item_kind (items_of []) ∷ [])) ≡ Some [] }
    ensures texts { items_told (returned (array_data text (items_of []) ∷ [])) ≡ None }
    ensures nothing { items_told (returned []) ≡ None }
    ensures more { items_told (returned (array_data item_kind (items_of []) ∷ (text_data [] ∷ []))) ≡ None }
    ensures error { items_told (failed (array_data item_kind (items_of []) ∷ [])) ≡ None }
{}

/// A text.
pub fn texts()
    ensures told { part_told Text (codes "/a") (returned (text_data (codes "hi") ∷ []))
        ≡ Some (TextIs (codes "/a") (codes "hi")) }
    ensures number { part_told Text (codes "/a") (returned (number_data i32 1 ∷ [])) ≡ None }
    ensures variant { part_told Text (codes "/a") (returned (variant_data text (text_data (codes "hi")) ∷ [])) ≡ None }
    ensures more { part_told Text (codes "/a") (returned (text_data (codes "hi") ∷ (text_data [] ∷ []))) ≡ None }
    ensures nothing { part_told Text (codes "/a") (returned []) ≡ None }
    ensures error { part_told Text (codes "/a") (failed (text_data (codes "hi") ∷ [])) ≡ None }
{}

/// A caret and a count of columns.
pub fn numbers()
    ensures caret { part_told Caret (codes "/a") (returned (variant_data (number i32) (number_data i32 3) ∷ []))
        ≡ Some (CaretIs (codes "/a") (pos 3)) }
    ensures columns { part_told Columns (codes "/a") (returned (variant_data (number i32) (number_data i32 3) ∷ []))
        ≡ Some (ColumnsIs (codes "/a") (pos 3)) }
    ensures negative_caret { part_told Caret (codes "/a")
        (returned (variant_data (number i32) (number_data i32 4294967295) ∷ [])) ≡ None }
    ensures negative_columns { part_told Columns (codes "/a")
        (returned (variant_data (number i32) (number_data i32 4294967295) ∷ [])) ≡ None }
    ensures unsigned_caret { part_told Caret (codes "/a")
        (returned (variant_data (number u32) (number_data u32 3) ∷ [])) ≡ None }
    ensures unsigned_columns { part_told Columns (codes "/a")
        (returned (variant_data (number u32) (number_data u32 3) ∷ [])) ≡ None }
    ensures bare { part_told Caret (codes "/a") (returned (number_data i32 3 ∷ [])) ≡ None }
    ensures bare_columns { part_told Columns (codes "/a") (returned (number_data i32 3 ∷ [])) ≡ None }
    ensures more { part_told Caret (codes "/a")
        (returned (variant_data (number i32) (number_data i32 3) ∷ (text_data [] ∷ []))) ≡ None }
    ensures error { part_told Columns (codes "/a") (failed (variant_data (number i32) (number_data i32 3) ∷ []))
        ≡ None }
{}
