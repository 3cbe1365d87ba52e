//! The names of states.

ghost use Rattle.std.specs.Prelude.{◌≡◌};
ghost use Rattle.atspi_protocol.specs.announcing.Signals as signals;

use atspi_tables::state_name;

/// The name of a state, empty where it has none.
pub(crate) fn name_of(state: u8) -> &'static str
    ensures { result.now ≡ signals.state_name state }
{
    match state_name(state) {
        Some(name) => name,
        None => "",
    }
}
