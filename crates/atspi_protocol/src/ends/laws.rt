//! Laws of what ends share.

ghost use Rattle.std.specs.Prelude.{◌≡◌};
ghost use Rattle.atspi_tree_model.specs.Path.{path_of};
ghost use Rattle.atspi_protocol.specs.ends.Places.{root_path};

/// The path of a root is that of node 0.
pub fn roots_are_node_0()
    ensures { path_of 0 ≡ root_path }
{}
