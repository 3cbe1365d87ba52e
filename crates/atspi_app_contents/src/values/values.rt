//! Small values, and places from outside.

ghost use Rattle.std.specs.Prelude.{◌≡◌, ◌≤◌, [], IfOk};
ghost use Rattle.atspi_types.specs.DataView.{data_of};
ghost use Rattle.atspi_protocol.specs.objects.Values.{count_data};
ghost use Rattle.atspi_app_contents.specs.values.Places.{place_of};
ghost use Rattle.atspi_app_contents.specs.values.Numbers.{node_at};

use atspi_base::{NoMemory, Text};
use atspi_types::Value;
use std::alloc::Global;

/// An index or a place from outside; none below 0.
pub fn place_of(index: i32) -> Option<usize>
    ensures { result ≡ place_of index }
{
    if index < 0 {
        None
    } else {
        Some(index as usize)
    }
}

/// The node at a place that may be none.
pub fn node_at(nodes: &[u32], place: Option<usize>) -> Option<u32>
    ensures { result ≡ node_at nodes.now place }
{
    match place {
        Some(place) => nodes.get(place).copied(),
        None => None,
    }
}

/// A count.
pub fn count(n: u32) -> Value
    requires { n ≤ 2147483647 }
    ensures { data_of result ≡ count_data n }
{
    Value::I32(n as i32)
}

/// The text without a character.
pub fn empty(alloc: Global) -> Result<Text, NoMemory>
    ensures { IfOk result (λ text. text ≡ []) }
{
    Text::of(alloc, "")
}
