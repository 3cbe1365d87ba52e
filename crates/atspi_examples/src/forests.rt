//! The operations on forests, on numbers.

ghost use Rattle.std.specs.Prelude.{◌≡◌, ◌+◌, ◌∷◌, [], nat_lt, true, false};
ghost use Rattle.atspi_tree_model.specs.Forest.{nil, tree, labels, count, has, width, join, put_in, take_out, pick};
ghost use Rattle.atspi_tree_model.specs.Forest.{relabel, change, place, find, tops, children_at, grow, EachLabel};
ghost use Rattle.atspi_tree_model.specs.Forest.{EachNode};
ghost use Rattle.atspi_examples.specs.Numbers.{is, leaf, sample, pair, spread, children};

/// Labels stand in preorder.
pub fn counts()
    ensures labels { labels sample ≡ 1 ∷ 2 ∷ 3 ∷ 4 ∷ 5 ∷ 6 ∷ [] }
    ensures spread { spread sample ≡ (0, 0, 1) ∷ (1, 0, 2) ∷ (1, 1, 3) ∷ (3, 0, 4) ∷ (0, 1, 5) ∷ (5, 0, 6) ∷ [] }
    ensures count { count (λ x. nat_lt x 4) sample ≡ 3 }
    ensures count_behind { count (λ x. nat_lt 3 x) sample ≡ 3 }
    ensures count_none { count (is 7) sample ≡ 0 }
    ensures has { has (is 4) sample ≡ true }
    ensures has_beside { has (is 6) sample ≡ true }
    ensures has_none { has (is 7) sample ≡ false }
    ensures width { width sample ≡ 2 }
    ensures width_leaves { width pair ≡ 2 }
    ensures width_none { width (children_at (is 2) sample) ≡ 0 }
    ensures tops { tops sample ≡ 1 ∷ 5 ∷ [] }
    ensures join { spread (join (leaf 9) sample)
        ≡ (0, 0, 9) ∷ (0, 1, 1) ∷ (1, 0, 2) ∷ (1, 1, 3) ∷ (3, 0, 4) ∷ (0, 2, 5) ∷ (5, 0, 6) ∷ [] }
{}

/// 7 and 8 are put below 1: in front, between its children, behind them, behind them also for an index that is too
/// large, and at the end.
pub fn put_in_order()
    ensures first { spread (put_in (is 1) (Some 0) pair sample)
        ≡ (0, 0, 1) ∷ (1, 0, 7) ∷ (1, 1, 8) ∷ (1, 2, 2) ∷ (1, 3, 3) ∷ (3, 0, 4) ∷ (0, 1, 5) ∷ (5, 0, 6) ∷ [] }
    ensures between { spread (put_in (is 1) (Some 1) pair sample)
        ≡ (0, 0, 1) ∷ (1, 0, 2) ∷ (1, 1, 7) ∷ (1, 2, 8) ∷ (1, 3, 3) ∷ (3, 0, 4) ∷ (0, 1, 5) ∷ (5, 0, 6) ∷ [] }
    ensures last { spread (put_in (is 1) (Some 2) pair sample)
        ≡ (0, 0, 1) ∷ (1, 0, 2) ∷ (1, 1, 3) ∷ (3, 0, 4) ∷ (1, 2, 7) ∷ (1, 3, 8) ∷ (0, 1, 5) ∷ (5, 0, 6) ∷ [] }
    ensures beyond { put_in (is 1) (Some 9) pair sample ≡ put_in (is 1) (Some 2) pair sample }
    ensures end { put_in (is 1) None pair sample ≡ put_in (is 1) (Some 2) pair sample }
    ensures leaf { spread (put_in (is 6) (Some 0) (leaf 7) sample)
        ≡ (0, 0, 1) ∷ (1, 0, 2) ∷ (1, 1, 3) ∷ (3, 0, 4) ∷ (0, 1, 5) ∷ (5, 0, 6) ∷ (6, 0, 7) ∷ [] }
    ensures none { put_in (is 9) (Some 0) pair sample ≡ sample }
    ensures each { spread (put_in (λ x. nat_lt x 2) (Some 0) (leaf 7) (put_in (is 3) (Some 0) (leaf 1) (leaf 3)))
        ≡ (0, 0, 3) ∷ (3, 0, 1) ∷ (1, 0, 7) ∷ [] }
{}

/// What is taken out and what is picked are the two parts; of nodes below one another the upper one takes all with it.
pub fn parts()
    ensures out { spread (take_out (is 3) sample) ≡ (0, 0, 1) ∷ (1, 0, 2) ∷ (0, 1, 5) ∷ (5, 0, 6) ∷ [] }
    ensures top_out { spread (take_out (is 1) sample) ≡ (0, 0, 5) ∷ (5, 0, 6) ∷ [] }
    ensures many_out { spread (take_out (λ x. nat_lt 2 x) sample) ≡ (0, 0, 1) ∷ (1, 0, 2) ∷ [] }
    ensures none_out { take_out (is 9) sample ≡ sample }
    ensures picked { spread (pick (is 3) sample) ≡ (0, 0, 3) ∷ (3, 0, 4) ∷ [] }
    ensures many_picked { spread (pick (λ x. nat_lt 2 x) sample) ≡ (0, 0, 3) ∷ (3, 0, 4) ∷ (0, 1, 5) ∷ (5, 0, 6) ∷ [] }
    ensures all_picked { pick (λ x. true) sample ≡ sample }
    ensures none_picked { pick (is 9) sample ≡ nil }
{}

/// A label that is changed keeps its place.
pub fn labels_changed()
    ensures relabel { spread (relabel (λ x. x + 10) sample)
        ≡ (0, 0, 11) ∷ (11, 0, 12) ∷ (11, 1, 13) ∷ (13, 0, 14) ∷ (0, 1, 15) ∷ (15, 0, 16) ∷ [] }
    ensures change { labels (change (is 3) (λ x. x + 10) sample) ≡ 1 ∷ 2 ∷ 13 ∷ 4 ∷ 5 ∷ 6 ∷ [] }
    ensures change_many { labels (change (λ x. nat_lt 3 x) (λ x. x + 10) sample) ≡ 1 ∷ 2 ∷ 3 ∷ 14 ∷ 15 ∷ 16 ∷ [] }
{}

/// The first node that passes is the first in preorder. At the top the name above and the first index are handed in.
pub fn looked_up()
    ensures place { place (λ x. x) (is 3) 7 4 sample ≡ Some (1, 1) }
    ensures place_below { place (λ x. x) (is 4) 7 4 sample ≡ Some (3, 0) }
    ensures place_top { place (λ x. x) (is 1) 7 4 sample ≡ Some (7, 4) }
    ensures place_beside { place (λ x. x) (is 5) 7 4 sample ≡ Some (7, 5) }
    ensures place_first { place (λ x. x) (λ x. nat_lt 2 x) 7 4 sample ≡ Some (1, 1) }
    ensures place_none { place (λ x. x) (is 9) 7 4 sample ≡ None }
    ensures find { find (is 4) sample ≡ Some 4 }
    ensures find_first { find (λ x. nat_lt 2 x) sample ≡ Some 3 }
    ensures find_upper { find (λ x. nat_lt 4 x) sample ≡ Some 5 }
    ensures find_none { find (is 9) sample ≡ None }
    ensures children { spread (children_at (is 1) sample) ≡ (0, 0, 2) ∷ (0, 1, 3) ∷ (3, 0, 4) ∷ [] }
    ensures children_below { children_at (is 3) sample ≡ leaf 4 }
    ensures children_beside { children_at (is 5) sample ≡ leaf 6 }
    ensures children_first { children_at (λ x. nat_lt 3 x) sample ≡ nil }
    ensures children_none { children_at (is 9) sample ≡ nil }
{}

/// A forest grows level by level.
pub fn grown()
    ensures none { grow 0 children (1 ∷ []) ≡ nil }
    ensures one { grow 1 children (1 ∷ 3 ∷ []) ≡ tree 1 nil (leaf 3) }
    ensures two { grow 2 children (1 ∷ 3 ∷ []) ≡ tree 1 (tree 2 nil (leaf 3)) (tree 3 (leaf 4) nil) }
    ensures three { grow 3 children (1 ∷ []) ≡ tree 1 (tree 2 nil (tree 3 (leaf 4) nil)) nil }
{}

/// What each label or node is to be, the first is, and each below it, and each beside it.
pub fn each()
    ensures labels { EachLabel (λ x. x ≡ 1) (tree 1 (leaf 1) (leaf 1)) }
    ensures label { EachLabel (λ x. x ≡ 1) (leaf 2) → ⊥ }
    ensures label_below { EachLabel (λ x. x ≡ 1) (tree 1 (leaf 2) nil) → ⊥ }
    ensures label_beside { EachLabel (λ x. x ≡ 1) (tree 1 nil (leaf 2)) → ⊥ }
    ensures nodes { EachNode (λ x below. width below ≡ x) (tree 1 (leaf 0) (leaf 0)) }
    ensures node_alone { EachNode (λ x below. width below ≡ x) (tree 1 (leaf 0) nil) }
    ensures node { EachNode (λ x below. width below ≡ x) (leaf 1) → ⊥ }
    ensures node_below { EachNode (λ x below. width below ≡ x) (tree 1 (leaf 1) nil) → ⊥ }
    ensures node_beside { EachNode (λ x below. width below ≡ x) (tree 1 (leaf 0) (leaf 1)) → ⊥ }
{}
