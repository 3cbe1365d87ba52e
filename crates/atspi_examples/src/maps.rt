//! When a finite map is a tree. Each condition has a map that fails by it alone.

ghost use Rattle.std.specs.Prelude.{◌≡◌, ◌≢◌, ◌≤◌, ◌<◌, ◌∷◌, [], ℕ, List, Option, IsSome, length, encode_utf8_all};
ghost use Rattle.atspi_tree_model.specs.Row.{TreeRow, Each};
ghost use Rattle.atspi_tree_model.specs.RowRules.{rows};
ghost use Rattle.atspi_tree_model.specs.Map.{times, Reached, IsTreeMap, row_in, child_numbers};
ghost use Rattle.atspi_examples.specs.Room.{bare, room};
ghost use Rattle.atspi_examples.specs.Maps.{two_nodes, two_with, crowd, children_of};

/// The map of the room.
pub fn of_room()
    ensures times { times 3 (3 ∷ 4 ∷ 3 ∷ []) ≡ 2 }
    ensures row { row_in rows room 4 ≡ Some (bare 4 4096) }
    ensures no_row { row_in rows room 99 ≡ None }
    ensures children { child_numbers rows room 1 ≡ 6 ∷ 4 ∷ 5 ∷ [] }
    ensures no_children { child_numbers rows room 4 ≡ [] }
    ensures reached { Reached (children_of (1 ∷ []) []) 1 }
    ensures not_reached { Reached (children_of (1 ∷ []) []) 2 → ⊥ }
{}

/// A map that has all parts is a tree, at its limits too.
pub fn all_parts()
    ensures { (row : ℕ → Option TreeRow) (children : ℕ → List ℕ) (numbers : List ℕ)
        → IsSome (row 0) → ((p : ℕ) → times 0 (children p) ≡ 0)
        → ((m : ℕ) → m ≢ 0 → IsSome (row m)
        → (p : ℕ) × (times m (children p) ≡ 1) × ((q : ℕ) → q ≢ p → times m (children q) ≡ 0))
        → ((m : ℕ) → IsSome (row m) → Reached children m)
        → ((p m : ℕ) → 1 ≤ times m (children p) → IsSome (row p) × IsSome (row m))
        → ((m : ℕ) → 4294967295 < m → row m ≡ None)
        → ((m : ℕ) (a : TreeRow) → row m ≡ Some a → a.shape.node ≡ m)
        → length numbers ≡ 8192 → ((m : ℕ) → IsSome (row m) → 1 ≤ times m numbers)
        → ((m : ℕ) (a : TreeRow) → row m ≡ Some a → rows.IsLawful a)
        → ((m : ℕ) (a : TreeRow) → row m ≡ Some a → Each (λ t. IsSome (row t)) (rows.targets a))
        → IsTreeMap rows row children 4294967295 }
{}

/// No tree: without node 0; with it below a node; with a node in a list twice, in two lists, or in none; with a node
/// that is only its own child; with a child that is no node, or of one; or with a number above the count.
pub fn no_trees()
    ensures rootless { IsTreeMap rows (λ n. None) (λ n. []) 0 → ⊥ }
    ensures root_below { IsTreeMap rows two_nodes (children_of (1 ∷ []) (0 ∷ [])) 1 → ⊥ }
    ensures twice { IsTreeMap rows two_nodes (children_of (1 ∷ 1 ∷ []) []) 1 → ⊥ }
    ensures two_lists { IsTreeMap rows two_nodes (children_of (1 ∷ []) (1 ∷ [])) 1 → ⊥ }
    ensures no_list { IsTreeMap rows two_nodes (children_of [] []) 1 → ⊥ }
    ensures circle { IsTreeMap rows two_nodes (children_of [] (1 ∷ [])) 1 → ⊥ }
    ensures no_child { IsTreeMap rows two_nodes (children_of (1 ∷ 5 ∷ []) []) 5 → ⊥ }
    ensures numbered { IsTreeMap rows two_nodes (children_of (1 ∷ []) []) 0 → ⊥ }
{}

/// No tree: with another number in a row; with too many nodes, now or ever; with a row outside its limits; or with a
/// target that is no node.
pub fn no_rows()
    ensures own_number { IsTreeMap rows (two_with (bare 3 0)) (children_of (1 ∷ []) []) 3 → ⊥ }
    ensures many { (children : ℕ → List ℕ) → IsTreeMap rows crowd children 8192 → ⊥ }
    ensures many_ever { IsTreeMap rows two_nodes (children_of (1 ∷ []) []) 4294967296 → ⊥ }
    ensures limits { (x : List ℕ) → length (encode_utf8_all x) ≡ 512
        → IsTreeMap rows (two_with (record (bare 1 0) { shape = record (bare 1 0).shape { name = x } }))
        (children_of (1 ∷ []) []) 1 → ⊥ }
    ensures targets { IsTreeMap rows
        (two_with (record (bare 1 0) { shape = record (bare 1 0).shape { relations = (1, 5) ∷ [] } }))
        (children_of (1 ∷ []) []) 1 → ⊥ }
{}
