//! Items whose references differ from one another, and lists of values among which some are no items.

ghost use Rattle.std.specs.Prelude.{◌≡◌, ◌∷◌, [], Some, pos, negsuc, codes, map};
ghost use Rattle.atspi_types.specs.Data.{text_data};
ghost use Rattle.atspi_tree_model.specs.declared.news.Item.{Item};
ghost use Rattle.atspi_protocol.specs.news.Cases as cases;
ghost use Rattle.atspi_protocol.specs.news.CacheSignals.{item_in};
ghost use Rattle.atspi_protocol.specs.news.Replies.{items_among};
ghost use Rattle.atspi_protocol.specs.objects.Values as values;
ghost use Rattle.atspi_examples.specs.protocol.Lists.{cancel};

/// Each field of an item stands at its own place, also where object, application and parent are of three names.
pub fn fields()
    ensures { item_in cancel
        ≡ Some (record {
          object = record { bus = codes ":1.7"; path = codes "/a" };
          application = record { bus = codes ":1.8"; path = codes "/b" };
          parent = record { bus = codes ":1.9"; path = codes "/c" };
          index = pos 2;
          children = negsuc 0;
          interfaces = codes "i.a" ∷ codes "i.b" ∷ [];
          name = codes "Cancel";
          role = 43;
          description = codes "Stops it";
          states = 4294967301;
        }) }
{}

/// Values that are no items are passed over, and the others stand in their order.
pub fn among_others()
    ensures { map (λ (i : Item). i.name) (items_among (text_data [] ∷ cases.item [] ∷ text_data [] ∷ cancel ∷ []))
        ≡ codes "OK" ∷ codes "Cancel" ∷ [] }
{}

/// An application tells items of the type that a reader's cases have.
pub fn types()
    ensures { values.item_kind ≡ cases.item_kind }
{}
