//! Which object of an application has a path, and what it offers.

ghost use Rattle.std.specs.Prelude.{◌≡◌, ◌==◌, true, bytes_eq, option_and_then, IfSome};
ghost use Rattle.std.specs.Option.{option_map};
ghost use Rattle.atspi_protocol.specs.ends.Places.{cache_path};
ghost use Rattle.atspi_tree_model.specs.Forest.{has};
ghost use Rattle.atspi_tree_model.specs.Tree.{is_shape};
ghost use Rattle.atspi_protocol.specs.objects.Places as places;
ghost use Rattle.atspi_protocol.specs.whole.Whole.{Faces, whole};
ghost use Rattle.atspi_app_calls.specs.Object as objects;
ghost use Rattle.atspi_app_answers.specs.Place.{place_of, IsThere};

use atspi_app_calls::{AppObject, node_at};
use atspi_tree::Tree;

/// An object of an application.
#[derive(Clone, Copy, Debug, PartialEq, Eq)]
pub enum AppPlace {
    /// The one that tells the whole tree.
    Tree,
    /// A node.
    Node(u32),
}

/// Whether a path is that of the object that tells the whole tree.
fn is_cache(path: &str) -> bool
    ensures { result ≡ bytes_eq path.now cache_path }
{
    path == "/org/a11y/atspi/cache"
}

/// The object that has a path, if there is one. Costs a look-up, and takes no memory.
pub fn place_at(tree: &Tree, path: &str) -> Option<AppPlace>
    ensures place { (faces : Faces)
        → places.place_at (whole tree.now.rows faces) path.now ≡ option_and_then (place_of tree.now faces) result }
    ensures there { IfSome result (IsThere tree.now) }
{
    tree.is_lawful();
    if is_cache(path) {
        return Some(AppPlace::Tree);
    }
    let Some(node) = node_at(path) else {
        return None;
    };
    if tree.has(node) {
        return Some(AppPlace::Node(node));
    }
    None
}

/// What a node offers.
fn node_object(tree: &Tree, node: u32) -> AppObject
    requires { has (is_shape node) tree.now.rows ≡ true }
    ensures { (faces : Faces)
        → option_map places.offered (place_of tree.now faces (AppPlace.Node node)) ≡ Some (objects.object_of result) }
{
    AppObject::Node {
        is_root: node == 0,
        kinds: tree.kinds(node),
    }
}

/// What an object that is there offers: its interfaces, with their members and properties.
pub fn object_of(tree: &Tree, place: AppPlace) -> AppObject
    requires { IsThere tree.now place }
    ensures { (faces : Faces)
        → option_map places.offered (place_of tree.now faces place) ≡ Some (objects.object_of result) }
{
    match place {
        AppPlace::Tree => AppObject::Cache,
        AppPlace::Node(node) => node_object(tree, node),
    }
}
