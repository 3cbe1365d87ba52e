//! The contents of nodes that are gone go too.

ghost use Rattle.std.specs.Prelude.{◌≡◌, true, map};
ghost use Rattle.std.specs.FinMap as fin_map;
ghost use Rattle.atspi_tree_model.specs.Forest.{has, labels, pick};
ghost use Rattle.atspi_tree_model.specs.Tree.{is_shape};
ghost use Rattle.atspi_protocol.specs.whole.Whole.{without};
ghost use Rattle.atspi_app_exported.specs.Parts.{kinds_of};

use atspi_faces::face::Face;
use atspi_tree::Tree;

/// Closes a node in all faces.
pub(crate) fn close<F: Face, G: Face, H: Face>(
    chars: &mut F,
    grid: &mut G,
    deeds: &mut H,
    node: u32,
)
    ensures texts { F.nodes chars.new ≡ fin_map.remove (F.nodes chars.old) node }
    ensures columns { G.nodes grid.new ≡ fin_map.remove (G.nodes grid.old) node }
    ensures actions { H.nodes deeds.new ≡ fin_map.remove (H.nodes deeds.old) node }
    ensures kinds { kinds_of (F.of_kind chars.new) (G.of_kind grid.new) (H.of_kind deeds.new)
        ≡ kinds_of (F.of_kind chars.old) (G.of_kind grid.old) (H.of_kind deeds.old) }
{
    chars.drop_node(node);
    grid.drop_node(node);
    deeds.drop_node(node);
}

/// Closes a node that is in the tree, and all nodes below it. Costs these nodes.
pub(crate) fn close_subtree<F: Face, G: Face, H: Face>(
    tree: &Tree,
    node: u32,
    chars: &mut F,
    grid: &mut G,
    deeds: &mut H,
)
    requires { has (is_shape node) tree.now.rows ≡ true }
    ensures texts { F.nodes chars.new
        ≡ without (map (λ row. row.node) (labels (pick (is_shape node) tree.now.rows))) (F.nodes chars.old) }
    ensures columns { G.nodes grid.new
        ≡ without (map (λ row. row.node) (labels (pick (is_shape node) tree.now.rows))) (G.nodes grid.old) }
    ensures actions { H.nodes deeds.new
        ≡ without (map (λ row. row.node) (labels (pick (is_shape node) tree.now.rows))) (H.nodes deeds.old) }
    ensures kinds { kinds_of (F.of_kind chars.new) (G.of_kind grid.new) (H.of_kind deeds.new)
        ≡ kinds_of (F.of_kind chars.old) (G.of_kind grid.old) (H.of_kind deeds.old) }
{
    tree.is_lawful();
    close(chars, grid, deeds, node);
    let mut walk = tree.seats_below(node);
    while let Some(seat) = walk.next() {
        close(chars, grid, deeds, seat.node);
    }
}
