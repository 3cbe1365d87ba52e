//! What a call asks of an application, and of which of its objects.

ghost use Rattle.std.specs.Prelude.{◌≡◌, [], unwrap_or, IfOk};
ghost use Rattle.atspi_message_in_place.specs.View.{bytes_of, envelope_at};
ghost use Rattle.atspi_app_answers.specs.Place.{IsThere};
ghost use Rattle.atspi_app_answers.specs.Asking.{Asks};

use crate::place::{AppPlace, object_of, place_at};
use atspi_app_calls::{Ask, asked};
use atspi_message_in_place::MessageRef;
use atspi_protocol::ends::CallError;
use atspi_tree::Tree;

/// A path, an empty one where there is none.
fn path_or_empty<'a>(path: Option<&'a str>) -> &'a str
    ensures { result.now ≡ unwrap_or (bytes_of path.entry) [] }
{
    match path {
        Some(path) => path,
        None => "",
    }
}

/// What a call asks, and of which object, or the error that it gets (AT-SPI2's interface files; D-Bus Specification,
/// "Standard Interfaces"). Errors are looked for in this order: the object, the interface, the member, the arguments,
/// the property. Takes no memory.
pub fn asked_in(tree: &Tree, call: &MessageRef) -> Result<(AppPlace, Ask), CallError>
    ensures there { IfOk result (λ found. IsThere tree.now found.0) }
    ensures asked { Asks tree.now (envelope_at call.now) result }
{
    let Some(place) = place_at(tree, path_or_empty(call.path)) else {
        return Err(CallError::UnknownObject);
    };
    match asked(object_of(tree, place), call) {
        Ok(ask) => Ok((place, ask)),
        Err(error) => Err(error),
    }
}
