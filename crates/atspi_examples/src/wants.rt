//! What a reader wants of an application as a list: which parts stand in it, and what becomes of it at a news.

ghost use Rattle.std.specs.Prelude.{◌≡◌, ◌∷◌, [], None, Some, false, true, pos, negsuc, codes};
ghost use Rattle.atspi_tree_model.specs.News.{fresh};
ghost use Rattle.atspi_protocol.specs.following.Takes.{still_refused};
ghost use Rattle.atspi_reader_known.specs.Listed.{AreOnce, all_wants, begins_with, follows, fresh_wants, left};
ghost use Rattle.atspi_reader_known.specs.Listed.{or_others, row_wants, tells_first};
ghost use Rattle.atspi_examples.specs.Seen.{item, path, row, seen};
ghost use Rattle.atspi_examples.specs.Turning.{held, unread, unread_both};

use atspi_protocol::news::PartName;
use atspi_tree_model::News;

/// The unknown parts of rows, those left out that were refused; and none twice.
pub fn listed()
    ensures row { row_wants [] (unread_both 1) ≡ (path 1, PartName.Text) ∷ (path 1, PartName.Caret) ∷ [] }
    ensures refused { row_wants ((path 1, PartName.Text) ∷ []) (unread_both 1) ≡ (path 1, PartName.Caret) ∷ [] }
    ensures elsewhere { row_wants ((path 2, PartName.Text) ∷ []) (unread 1) ≡ (path 1, PartName.Text) ∷ [] }
    ensures rows { all_wants [] (unread 1 ∷ row 3 ∷ unread 2 ∷ [])
        ≡ (path 1, PartName.Text) ∷ (path 2, PartName.Text) ∷ [] }
    ensures left { left ((path 1, PartName.Text) ∷ []) ((path 1, PartName.Text) ∷ (path 1, PartName.Caret) ∷ [])
        ≡ (path 1, PartName.Caret) ∷ [] }
    ensures once { AreOnce ((path 1, PartName.Text) ∷ (path 1, PartName.Caret) ∷ (path 2, PartName.Text) ∷ []) }
    ensures twice { AreOnce ((path 1, PartName.Text) ∷ (path 2, PartName.Text) ∷ (path 1, PartName.Text) ∷ []) → ⊥ }
{}

/// Which news a list follows: each where it is empty, but for a child that the view has not; of those that could change
/// an unknown part none where it is not.
pub fn followed()
    ensures child { follows ((path 2, PartName.Text) ∷ []) seen (News.ChildAdded (path 1)) ≡ true }
    ensures stranger { follows [] seen (News.ChildAdded (path 7)) ≡ false }
    ensures item { follows [] seen (News.Item (item 4 0 (pos 2))) ≡ true }
    ensures item_late { follows ((path 2, PartName.Text) ∷ []) seen (News.Item (item 4 0 (pos 2))) ≡ false }
    ensures removed { follows [] seen (News.Removed (path 2)) ≡ true }
    ensures removed_late { follows ((path 2, PartName.Text) ∷ []) seen (News.Removed (path 2)) ≡ false }
    ensures gone { follows [] seen (News.ChildRemoved (path 0) (pos 1) (path 2)) ≡ true }
    ensures gone_late { follows ((path 2, PartName.Text) ∷ []) seen (News.ChildRemoved (path 0) (pos 1) (path 2))
        ≡ false }
    ensures text { follows [] seen (News.TextIs (path 2) (codes "a")) ≡ true }
    ensures text_late { follows ((path 2, PartName.Text) ∷ []) seen (News.TextIs (path 2) (codes "a")) ≡ false }
    ensures caret { follows [] seen (News.CaretIs (path 2) (pos 0)) ≡ true }
    ensures caret_late { follows ((path 2, PartName.Text) ∷ []) seen (News.CaretIs (path 2) (pos 0)) ≡ false }
    ensures columns { follows [] seen (News.ColumnsIs (path 2) (pos 0)) ≡ true }
    ensures columns_late { follows ((path 2, PartName.Text) ∷ []) seen (News.ColumnsIs (path 2) (pos 0)) ≡ false }
    ensures name { follows ((path 2, PartName.Text) ∷ []) seen (News.Name (path 2) (codes "a")) ≡ true }
    ensures inserted { follows ((path 2, PartName.Text) ∷ []) seen (News.Inserted (path 2) (pos 0) (codes "a")) ≡ true }
{}

/// What stays refused where an item comes: where its path has a row, all; where it has none, what was refused of other
/// paths. No other news ends a refusal.
pub fn still_refused()
    ensures known { still_refused seen (News.Item (item 1 0 (pos 0))) ((path 1, PartName.Text) ∷ [])
        ≡ (path 1, PartName.Text) ∷ [] }
    ensures anew { still_refused seen (News.Item (item 4 0 (pos 0)))
        ((path 4, PartName.Text) ∷ (path 1, PartName.Caret) ∷ (path 4, PartName.Columns) ∷ [])
        ≡ (path 1, PartName.Caret) ∷ [] }
    ensures orphan { still_refused seen (News.Item (item 4 9 (pos 0))) ((path 4, PartName.Text) ∷ []) ≡ [] }
    ensures removed { still_refused seen (News.Removed (path 1)) ((path 1, PartName.Text) ∷ [])
        ≡ (path 1, PartName.Text) ∷ [] }
{}

/// What a node that is added brings; an item of a node that stands in the view, or of an unknown parent, brings
/// nothing, and no other news does.
pub fn brought()
    ensures known { fresh_wants held seen (News.Item (item 1 0 (pos 0))) ≡ [] }
    ensures orphan { fresh_wants held seen (News.Item (item 4 9 (pos 0))) ≡ [] }
    ensures added { fresh_wants held seen (News.Item (item 4 0 (pos 0))) ≡ row_wants [] (fresh (item 4 0 (pos 0))) }
    ensures name { fresh_wants held seen (News.Name (path 2) (codes "a")) ≡ [] }
    ensures others { or_others [] ((path 1, PartName.Text) ∷ []) ≡ (path 1, PartName.Text) ∷ [] }
    ensures own { or_others ((path 2, PartName.Text) ∷ []) ((path 1, PartName.Text) ∷ [])
        ≡ (path 2, PartName.Text) ∷ [] }
{}

/// Whether a news tells the first part of a list; a negative place or count tells none.
pub fn told_first()
    ensures empty { begins_with [] (path 1, PartName.Text) ≡ false }
    ensures begins { begins_with ((path 1, PartName.Text) ∷ []) (path 1, PartName.Text) ≡ true }
    ensures other_part { begins_with ((path 1, PartName.Text) ∷ []) (path 1, PartName.Caret) ≡ false }
    ensures other_path { begins_with ((path 1, PartName.Text) ∷ []) (path 2, PartName.Text) ≡ false }
    ensures text { tells_first ((path 1, PartName.Text) ∷ []) (News.TextIs (path 1) (codes "a")) ≡ true }
    ensures caret { tells_first ((path 1, PartName.Caret) ∷ []) (News.CaretIs (path 1) (pos 0)) ≡ true }
    ensures before { tells_first ((path 1, PartName.Caret) ∷ []) (News.CaretIs (path 1) (negsuc 0)) ≡ false }
    ensures columns { tells_first ((path 1, PartName.Columns) ∷ []) (News.ColumnsIs (path 1) (pos 2)) ≡ true }
    ensures fewer { tells_first ((path 1, PartName.Columns) ∷ []) (News.ColumnsIs (path 1) (negsuc 0)) ≡ false }
    ensures second { tells_first ((path 1, PartName.Caret) ∷ (path 1, PartName.Text) ∷ [])
        (News.TextIs (path 1) (codes "a")) ≡ false }
    ensures name { tells_first ((path 1, PartName.Text) ∷ []) (News.Name (path 1) (codes "a")) ≡ false }
{}
