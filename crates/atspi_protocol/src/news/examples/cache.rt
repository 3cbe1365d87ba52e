//! The signals of an application's cache.

ghost use Rattle.std.specs.Prelude.{◌≡◌, ◌∷◌, ◌+◌, ◌*◌, ◌^◌, [], None, Some, pos, codes};
ghost use Rattle.atspi_types.specs.Kinds.{i32, u32, number, text};
ghost use Rattle.atspi_types.specs.Data.{text_data, number_data, variant_data, structure_data, array_data, items_of};
ghost use Rattle.atspi_tree_model.specs.declared.news.News.TheVariants.{Removed, Nothing, Item as NewItem};
ghost use Rattle.atspi_protocol.specs.news.NewsOf.{news_of, cache_interface};
ghost use Rattle.atspi_protocol.specs.news.CacheSignals.{item_in, states_in};
ghost use Rattle.atspi_protocol.specs.news.Cases.{signal, item, reference, words_data};

/// An item, field by field.
pub fn items()
    ensures whole { news_of (codes ":1.7")
        (signal (codes "/x") cache_interface (codes "AddAccessible")
        (item (number_data u32 256 ∷ (number_data u32 1 ∷ [])) ∷ []))
        ≡ NewItem (record {
          object = record { bus = codes ":1.7"; path = codes "/a" };
          application = record { bus = codes ":1.7"; path = codes "/r" };
          parent = record { bus = codes ":1.7"; path = codes "/r" };
          index = pos 1;
          children = pos 0;
          interfaces = codes "org.a11y.atspi.Accessible" ∷ [];
          name = codes "OK";
          role = 43;
          description = codes "Does it";
          states = 4294967552;
        }) }
    ensures two_items { news_of (codes ":1.7")
        (signal (codes "/x") cache_interface (codes "AddAccessible") (item [] ∷ (item [] ∷ []))) ≡ Nothing }
    ensures no_item { news_of (codes ":1.7")
        (signal (codes "/x") cache_interface (codes "AddAccessible") (reference (codes ":1.7") (codes "/a") ∷ []))
        ≡ Nothing }
    ensures nothing { news_of (codes ":1.7") (signal (codes "/x") cache_interface (codes "AddAccessible") [])
        ≡ Nothing }
    ensures text { news_of (codes ":1.7")
        (signal (codes "/x") cache_interface (codes "AddAccessible") (text_data (codes "/a") ∷ [])) ≡ Nothing }
    ensures other { news_of (codes ":1.7") (signal (codes "/x") cache_interface (codes "AddAccessibles") (item [] ∷ []))
        ≡ Nothing }
    ensures as_event { news_of (codes ":1.7")
        (record (signal (codes "/x") cache_interface (codes "AddAccessible") (item [] ∷ []))
        { interface = Some (codes "org.a11y.atspi.Event.Object") }) ≡ Nothing }
    ensures called { news_of (codes ":1.7")
        (record (signal (codes "/x") cache_interface (codes "AddAccessible") (item [] ∷ [])) { kind = 1 })
        ≡ Nothing }
{}

/// States come in words, the low one first.
pub fn words()
    ensures none { states_in [] ≡ 0 }
    ensures one { states_in (5 ∷ []) ≡ 5 }
    ensures two { states_in (5 ∷ (1 ∷ [])) ≡ 4294967301 }
    ensures three { states_in (5 ∷ (1 ∷ (7 ∷ []))) ≡ 4294967301 }
{}

/// A field that is missing or of another type makes no item.
pub fn fields()
    ensures short { item_in
        (structure_data
        (items_of (reference (codes ":1.7") (codes "/a") ∷ (reference (codes ":1.7") (codes "/r") ∷ []))))
        ≡ None }
    ensures first { item_in
        (structure_data
        (items_of
        (text_data []
        ∷ (reference [] []
        ∷ (reference [] [] ∷ (number_data i32 1 ∷ (number_data i32 0 ∷ (array_data text (items_of [])
        ∷ (text_data [] ∷ (number_data u32 43 ∷ (text_data [] ∷ (words_data [] ∷ [])))))))))))) ≡ None }
    ensures second { item_in
        (structure_data
        (items_of
        (reference [] []
        ∷ (text_data []
        ∷ (reference [] [] ∷ (number_data i32 1 ∷ (number_data i32 0 ∷ (array_data text (items_of [])
        ∷ (text_data [] ∷ (number_data u32 43 ∷ (text_data [] ∷ (words_data [] ∷ [])))))))))))) ≡ None }
    ensures third { item_in
        (structure_data
        (items_of
        (reference [] []
        ∷ (reference [] []
        ∷ (text_data [] ∷ (number_data i32 1 ∷ (number_data i32 0 ∷ (array_data text (items_of [])
        ∷ (text_data [] ∷ (number_data u32 43 ∷ (text_data [] ∷ (words_data [] ∷ [])))))))))))) ≡ None }
    ensures index { item_in
        (structure_data
        (items_of
        (reference [] []
        ∷ (reference [] []
        ∷ (reference [] [] ∷ (number_data u32 1 ∷ (number_data i32 0 ∷ (array_data text (items_of [])
        ∷ (text_data [] ∷ (number_data u32 43 ∷ (text_data [] ∷ (words_data [] ∷ [])))))))))))) ≡ None }
    ensures children { item_in
        (structure_data
        (items_of
        (reference [] []
        ∷ (reference [] []
        ∷ (reference [] [] ∷ (number_data i32 1 ∷ (number_data u32 0 ∷ (array_data text (items_of [])
        ∷ (text_data [] ∷ (number_data u32 43 ∷ (text_data [] ∷ (words_data [] ∷ [])))))))))))) ≡ None }
    ensures interfaces { item_in
        (structure_data
        (items_of
        (reference [] []
        ∷ (reference [] []
        ∷ (reference [] []
        ∷ (number_data i32 1 ∷ (number_data i32 0 ∷ (array_data (number u32) (items_of [])
        ∷ (text_data [] ∷ (number_data u32 43 ∷ (text_data [] ∷ (words_data [] ∷ [])))))))))))) ≡ None }
    ensures role { item_in
        (structure_data
        (items_of
        (reference [] []
        ∷ (reference [] []
        ∷ (reference [] [] ∷ (number_data i32 1 ∷ (number_data i32 0 ∷ (array_data text (items_of [])
        ∷ (text_data [] ∷ (number_data i32 43 ∷ (text_data [] ∷ (words_data [] ∷ [])))))))))))) ≡ None }
    ensures words { item_in
        (structure_data
        (items_of
        (reference [] []
        ∷ (reference [] []
        ∷ (reference [] [] ∷ (number_data i32 1 ∷ (number_data i32 0 ∷ (array_data text (items_of [])
        ∷ (text_data [] ∷ (number_data u32 43 ∷ (text_data [] ∷ (array_data text (items_of []) ∷ [])))))))))))) ≡ None }
{}

/// A node goes: one of the application's own.
pub fn removals()
    ensures own { news_of (codes ":1.7")
        (signal (codes "/x") cache_interface (codes "RemoveAccessible")
        (reference (codes ":1.7") (codes "/a") ∷ [])) ≡ Removed (codes "/a") }
    ensures others { news_of (codes ":1.7")
        (signal (codes "/x") cache_interface (codes "RemoveAccessible")
        (reference (codes ":1.8") (codes "/a") ∷ [])) ≡ Nothing }
    ensures two { news_of (codes ":1.7")
        (signal (codes "/x") cache_interface (codes "RemoveAccessible")
        (reference (codes ":1.7") (codes "/a") ∷ (reference (codes ":1.7") (codes "/a") ∷ []))) ≡ Nothing }
    ensures no_reference { news_of (codes ":1.7")
        (signal (codes "/x") cache_interface (codes "RemoveAccessible") (text_data (codes "/a") ∷ [])) ≡ Nothing }
    ensures nothing { news_of (codes ":1.7") (signal (codes "/x") cache_interface (codes "RemoveAccessible") [])
        ≡ Nothing }
{}
