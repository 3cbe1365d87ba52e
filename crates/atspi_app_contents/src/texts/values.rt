//! Values that tell of texts, and whether a node has one.

ghost use Rattle.std.specs.Prelude.{◌≡◌, ◌≤◌, [], None, IsSome, IfOk};
ghost use Rattle.std.specs.Bool.{OnTrue, OnFalse};
ghost use Rattle.std.specs.FinMap.{get};
ghost use Rattle.atspi_types.specs.DataView.{data_of};
ghost use Rattle.atspi_protocol.specs.objects.Values.{count_data};

use atspi_base::{NoMemory, Text};
use atspi_faces::face::Face;
use atspi_types::Value;
use std::alloc::Global;

/// A count.
pub(crate) fn count(n: u32) -> Value
    requires { n ≤ 2147483647 }
    ensures { data_of result ≡ count_data n }
{
    Value::I32(n as i32)
}

/// The text without a character.
pub(crate) fn empty(alloc: Global) -> Result<Text, NoMemory>
    ensures { IfOk result (λ text. text ≡ []) }
{
    Text::of(alloc, "")
}

/// Whether a face keeps something for a node.
pub(crate) fn is_here<C: Face>(face: &C, node: u32) -> bool
    ensures here { OnTrue result (IsSome (get (C.nodes face.now) node)) }
    ensures absent { OnFalse result (get (C.nodes face.now) node ≡ None) }
{
    match face.next_node(node) {
        Some(next) => {
            if next == node {
                return true;
            }
            false
        }
        None => false,
    }
}
