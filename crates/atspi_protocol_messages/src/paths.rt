//! The paths of nodes.

ghost use Rattle.std.specs.Prelude.{◌≡◌, codes, IfOk};
ghost use Rattle.atspi_tree_model.specs.Path.{path_of};

use atspi_base::NoMemory;
use atspi_base::valid_names::Path;
use atspi_protocol::ends::path;
use std::alloc::Global;

/// The path of a node: of the root by its name, of any other by its number.
#[tactic(auto, unfolding(atspi_tree_model::specs::Path::path_of))]
pub fn node_path(alloc: Global, node: u32) -> Result<Path, NoMemory>
    ensures { IfOk result (λ path. path ≡ path_of node) }
{
    if node == 0 {
        return path(alloc, "/org/a11y/atspi/accessible/root");
    }
    let text = format!(in alloc; "/org/a11y/atspi/accessible/{node}")?;
    path(alloc, &text)
}
