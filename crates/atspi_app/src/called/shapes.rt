//! Calls that look into no contents but counts.

ghost use Rattle.std.specs.Prelude.{◌≡◌, [], IfOk};
ghost use Rattle.atspi_marshal_in_place.specs.Items.{fields_data};
ghost use Rattle.atspi_protocol.specs.whole.Whole.{Faces};
ghost use Rattle.atspi_app_answers.specs.Counted.{HasCountsAt};
ghost use Rattle.atspi_app_answers.specs.Place.{IsThere};
ghost use Rattle.atspi_app_answers.specs.Told.{IsOfShape};
ghost use Rattle.atspi_app.specs.called.inner.Told.{PlaceComesTo};

use crate::called::outcome::Called;
use atspi_app_answers::{AnswerFault, AppPlace, Counts, answer, id_after};
use atspi_app_calls::Ask;
use atspi_base::{NoMemory, Text};
use atspi_marshal_in_place::Fields;
use atspi_tree::Tree;
use atspi_tree_model::StepList;
use std::alloc::Global;

/// What is asked of an object that is there, where that looks into no contents but those that are counted.
pub(crate) fn of_shape(
    alloc: Global,
    tree: &Tree,
    bus: &Text,
    id: i32,
    counts: Counts,
    place: AppPlace,
    ask: Ask,
    args: Fields,
) -> Result<Called, NoMemory>
    requires there { IsThere tree.now place }
    requires shape { IsOfShape place ask }
    ensures comes { IfOk result
        (λ c. (faces : Faces) → HasCountsAt counts tree.now faces place ask
        → PlaceComesTo tree.now faces bus.now id place (fields_data args.entry) ask c) }
    ensures no_steps { IfOk result (λ c. c.steps ≡ []) }
{
    match answer(alloc, tree, bus, id, counts, place, ask, args) {
        Ok(values) => Ok(Called {
            reply: Ok(values),
            steps: StepList::new(alloc),
            id: id_after(id, ask),
        }),
        Err(AnswerFault::Refused(error)) => Ok(Called {
            reply: Err(error),
            steps: StepList::new(alloc),
            id,
        }),
        Err(AnswerFault::NoMemory) => Err(NoMemory),
    }
}
