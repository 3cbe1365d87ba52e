//! Rows: texts, relations, limits, and the row of a new node.

ghost use Rattle.std.specs.Prelude.{◌≡◌, ◌==◌, ◌∷◌, [], ℕ, List, pos, negsuc, length, encode_utf8_all, true};
ghost use Rattle.atspi_tree_model.specs.Row.{insert_there, delete_there, targets_of, with_targets, without_targets};
ghost use Rattle.atspi_tree_model.specs.Row.{IsName, IsText, IsColumns, IsShape, IsContents, Each, Holds, HoldsIfThere};
ghost use Rattle.atspi_tree_model.specs.RowRules.{first_kinds, rows, shapes, first_shape, first_contents};
ghost use Rattle.atspi_examples.specs.Room.{bare, no_kinds, hello, hello_there, marks, plain, full_seed, with_text};
ghost use Rattle.atspi_examples.specs.Room.{with_columns};

/// A place that is outside a text, and a range that is so in part, change nothing.
pub fn texts()
    ensures insert { insert_there (pos 1) (8 ∷ 9 ∷ []) (1 ∷ 2 ∷ []) ≡ 1 ∷ 8 ∷ 9 ∷ 2 ∷ [] }
    ensures insert_first { insert_there (pos 0) (8 ∷ []) (1 ∷ 2 ∷ []) ≡ 8 ∷ 1 ∷ 2 ∷ [] }
    ensures insert_last { insert_there (pos 2) (8 ∷ []) (1 ∷ 2 ∷ []) ≡ 1 ∷ 2 ∷ 8 ∷ [] }
    ensures insert_behind { insert_there (pos 3) (8 ∷ []) (1 ∷ 2 ∷ []) ≡ 1 ∷ 2 ∷ [] }
    ensures insert_negative { insert_there (negsuc 0) (8 ∷ []) (1 ∷ 2 ∷ []) ≡ 1 ∷ 2 ∷ [] }
    ensures delete { delete_there (pos 1) (pos 1) (1 ∷ 2 ∷ 3 ∷ []) ≡ 1 ∷ 3 ∷ [] }
    ensures delete_all { delete_there (pos 0) (pos 3) (1 ∷ 2 ∷ 3 ∷ []) ≡ [] }
    ensures delete_last { delete_there (pos 2) (pos 1) (1 ∷ 2 ∷ 3 ∷ []) ≡ 1 ∷ 2 ∷ [] }
    ensures delete_beyond { delete_there (pos 0) (pos 4) (1 ∷ 2 ∷ 3 ∷ []) ≡ 1 ∷ 2 ∷ 3 ∷ [] }
    ensures delete_none { delete_there (pos 3) (pos 0) (1 ∷ 2 ∷ 3 ∷ []) ≡ 1 ∷ 2 ∷ 3 ∷ [] }
    ensures delete_partly { delete_there (pos 2) (pos 2) (1 ∷ 2 ∷ 3 ∷ []) ≡ 1 ∷ 2 ∷ 3 ∷ [] }
    ensures delete_negative { delete_there (negsuc 0) (pos 1) (1 ∷ 2 ∷ 3 ∷ []) ≡ 1 ∷ 2 ∷ 3 ∷ [] }
    ensures delete_so_few { delete_there (pos 1) (negsuc 0) (1 ∷ 2 ∷ 3 ∷ []) ≡ 1 ∷ 2 ∷ 3 ∷ [] }
{}

/// The relations of other kinds, and to other targets, stay as they are.
pub fn relations()
    ensures targets { targets_of 1 ((1, 3) ∷ (2, 4) ∷ (1, 5) ∷ []) ≡ 3 ∷ 5 ∷ [] }
    ensures others { with_targets 1 (7 ∷ 8 ∷ []) ((1, 3) ∷ (2, 4) ∷ (1, 5) ∷ []) ≡ (2, 4) ∷ (1, 7) ∷ (1, 8) ∷ [] }
    ensures fewer { without_targets (λ t. t == 4) ((1, 3) ∷ (2, 4) ∷ (1, 5) ∷ []) ≡ (1, 3) ∷ (1, 5) ∷ [] }
    ensures all { shapes.targets (record (bare 1 0).shape { relations = (1, 3) ∷ (2, 4) ∷ [] }) ≡ 3 ∷ 4 ∷ [] }
    ensures all_of_row { rows.targets
        (record (bare 1 0) { shape = record (bare 1 0).shape { relations = (1, 3) ∷ (2, 4) ∷ [] } }) ≡ 3 ∷ 4 ∷ [] }
    ensures forgotten { rows.forgetting (λ t. t == 4)
        (record (bare 1 0) { shape = record (bare 1 0).shape { relations = (1, 3) ∷ (2, 4) ∷ [] } })
        ≡ record (bare 1 0) { shape = record (bare 1 0).shape { relations = (1, 3) ∷ [] } } }
    ensures forgotten_shape { shapes.forgetting (λ t. t == 4)
        (record (bare 1 0).shape { relations = (1, 3) ∷ (2, 4) ∷ [] })
        ≡ record (bare 1 0).shape { relations = (1, 3) ∷ [] } }
    ensures number { rows.number (bare 5 0) ≡ 5 }
    ensures shape_number { shapes.number (bare 5 0).shape ≡ 5 }
{}

/// The interfaces of a new node are those that its seed has contents for, and those that it names.
pub fn first_interfaces()
    ensures all { first_kinds full_seed
        ≡ record { text = true; editable = true; selection = true; table = true; action = true } }
    ensures none { first_kinds (plain 0 []) ≡ no_kinds }
    ensures text { first_kinds (with_text hello) ≡ record no_kinds { text = true } }
    ensures editable { first_kinds (record (plain 0 []) { editable = true }) ≡ record no_kinds { editable = true } }
    ensures selection { first_kinds (record (plain 0 []) { select = true }) ≡ record no_kinds { selection = true } }
    ensures table { first_kinds (with_columns 2) ≡ record no_kinds { table = true } }
    ensures action { first_kinds (record (plain 0 []) { actions = hello ∷ [] }) ≡ record no_kinds { action = true } }
{}

/// A new node has its seed's role and name, the first states, no description and no relations; of its text the caret
/// stands in front and nothing is selected.
pub fn first_rows()
    ensures shape { first_shape 5 full_seed
        ≡ record {
          node = 5;
          name = 110 ∷ [];
          description = [];
          role = 61;
          states = 1124073728;
          kinds = record { text = true; editable = true; selection = true; table = true; action = true };
          relations = [];
        } }
    ensures contents { first_contents full_seed
        ≡ record {
          text = Some (record { characters = hello; caret = 0; selections = [] });
          columns = Some 2;
          actions = (97 ∷ []) ∷ [];
        } }
    ensures no_contents { first_contents (plain 0 []) ≡ record { text = None; columns = None; actions = [] } }
    ensures row { rows.first 5 full_seed
        ≡ record { shape = first_shape 5 full_seed; contents = first_contents full_seed } }
    ensures shape_row { shapes.first 5 full_seed ≡ first_shape 5 full_seed }
{}

/// Each limit, at its last number and behind it.
pub fn limits()
    ensures name { (x : List ℕ) → length (encode_utf8_all x) ≡ 511 → IsName x }
    ensures long_name { (x : List ℕ) → length (encode_utf8_all x) ≡ 512 → IsName x → ⊥ }
    ensures column { IsColumns 1 }
    ensures columns { IsColumns 1024 }
    ensures no_column { IsColumns 0 → ⊥ }
    ensures many_columns { IsColumns 1025 → ⊥ }
    ensures text { (x : List ℕ) → length x ≡ 1048576
        → IsText (record { characters = x; caret = 1048576; selections = (1048575, 1048576) ∷ [] }) }
    ensures marks { IsText (record hello_there { selections = marks 16 }) }
    ensures long_text { (x : List ℕ) → length x ≡ 1048577 → IsText (record hello_there { characters = x }) → ⊥ }
    ensures caret { IsText (record hello_there { caret = 6 }) → ⊥ }
    ensures many_marks { IsText (record hello_there { selections = marks 17 }) → ⊥ }
    ensures empty_mark { IsText (record hello_there { selections = (2, 2) ∷ [] }) → ⊥ }
    ensures mark_behind { IsText (record hello_there { selections = (0, 1) ∷ (4, 6) ∷ [] }) → ⊥ }
{}

/// A shape has a short name and a short description, and a text if one can be edited.
pub fn shapes_in_limits()
    ensures shape { (x : List ℕ) → length (encode_utf8_all x) ≡ 511
        → IsShape
        (record (bare 1 0).shape
        { name = x; description = x; kinds = record no_kinds { text = true; editable = true } }) }
    ensures no_text { IsShape (bare 1 0).shape }
    ensures name { (x : List ℕ) → length (encode_utf8_all x) ≡ 512 → IsShape (record (bare 1 0).shape { name = x })
        → ⊥ }
    ensures description { (x : List ℕ) → length (encode_utf8_all x) ≡ 512
        → IsShape (record (bare 1 0).shape { description = x }) → ⊥ }
    ensures editable { IsShape (record (bare 1 0).shape { kinds = record no_kinds { editable = true } }) → ⊥ }
{}

/// Contents are of just the kinds that the shape names.
pub fn contents_in_limits()
    ensures none { IsContents no_kinds (bare 1 0).contents }
    ensures all { IsContents (first_kinds full_seed) (first_contents full_seed) }
    ensures eight { IsContents (record no_kinds { action = true })
        (record (bare 1 0).contents { actions = hello ∷ hello ∷ hello ∷ hello ∷ hello ∷ hello ∷ hello ∷ hello ∷ [] }) }
    ensures nine { IsContents (record no_kinds { action = true })
        (record (bare 1 0).contents
        { actions = hello ∷ hello ∷ hello ∷ hello ∷ hello ∷ hello ∷ hello ∷ hello ∷ hello ∷ [] }) → ⊥ }
    ensures no_text { IsContents (record no_kinds { text = true }) (bare 1 0).contents → ⊥ }
    ensures bad_text { IsContents (record no_kinds { text = true })
        (record (bare 1 0).contents { text = Some (record hello_there { caret = 6 }) }) → ⊥ }
    ensures no_columns { IsContents (record no_kinds { table = true }) (bare 1 0).contents → ⊥ }
    ensures bad_columns { IsContents (record no_kinds { table = true })
        (record (bare 1 0).contents { columns = Some 0 }) → ⊥ }
    ensures no_actions { IsContents (record no_kinds { action = true }) (bare 1 0).contents → ⊥ }
{}

/// A property of each element, and of a value that is there.
pub fn properties()
    ensures each { Each (λ (x : ℕ). x ≡ 1) (1 ∷ 1 ∷ []) }
    ensures first { Each (λ (x : ℕ). x ≡ 1) (2 ∷ 1 ∷ []) → ⊥ }
    ensures second { Each (λ (x : ℕ). x ≡ 1) (1 ∷ 2 ∷ []) → ⊥ }
    ensures holds { Holds (λ (x : ℕ). x ≡ 1) (Some 1) }
    ensures fails { Holds (λ (x : ℕ). x ≡ 1) (Some 2) → ⊥ }
    ensures absent { Holds (λ (x : ℕ). x ≡ 1) None → ⊥ }
    ensures fails_there { HoldsIfThere (λ (x : ℕ). x ≡ 1) (Some 2) → ⊥ }
    ensures not_there { HoldsIfThere (λ (x : ℕ). x ≡ 1) None }
{}
