//! The steps of an edit that a call names.

ghost use Rattle.std.specs.Prelude.{◌≡◌, ◌++◌, IfOk};
ghost use Rattle.atspi_marshal_in_place.specs.Items.{fields_data};
ghost use Rattle.atspi_tree_model.specs.Edits.{IsEdit};
ghost use Rattle.atspi_tree_edits.specs.Answers.{IsKnown, edit_steps};
ghost use Rattle.atspi_app_contents.specs.changes.inner.Steps.{and_more, granted};
ghost use Rattle.atspi_app_contents.specs.changes.inner.Changing.{ChangesActions};

use crate::changes::arguments::place;
use atspi_app_calls::reading::first_signed;
use atspi_base::NoMemory;
use atspi_marshal_in_place::Fields;
use atspi_protocol::members::ObjectMember;
use atspi_tree::Tree;
use atspi_tree_edits::{EditRefused, steps_of};
use atspi_tree_model::{Edit, FaceData, StepList};
use std::alloc::Global;

/// The steps of an edit, none where it is refused.
pub(crate) fn granted(
    alloc: Global,
    tree: &Tree,
    edit: Edit,
    known: &FaceData,
) -> Result<Option<StepList>, NoMemory>
    requires lawful { IsEdit edit }
    requires known { IsKnown known.now }
    ensures { IfOk result (λ steps. steps ≡ granted (edit_steps tree.now known.now edit)) }
{
    let steps = steps_of(alloc, tree, &edit, known);
    // (let go at one place)
    drop(edit);
    match steps {
        Ok(steps) => Ok(Some(steps)),
        Err(EditRefused::Refused(_)) => Ok(None),
        Err(EditRefused::NoMemory) => Err(NoMemory),
    }
}

/// The steps of two lists, one after the other.
fn joined(first: StepList, second: StepList) -> Result<StepList, NoMemory>
    ensures { IfOk result (λ steps. steps ≡ first ++ second) }
{
    let mut steps = first.into_vec();
    let mut more = second.into_vec();
    steps.append(&mut more)?;
    Ok(StepList::from_vec(steps))
}

/// Steps, and then others that may be refused, and then all are.
pub(crate) fn and_more(
    steps: Option<StepList>,
    more: Option<StepList>,
) -> Result<Option<StepList>, NoMemory>
    ensures { IfOk result (λ all. all ≡ and_more steps more) }
{
    let Some(steps) = steps else {
        return Ok(None);
    };
    let Some(more) = more else {
        return Ok(None);
    };
    let all = joined(steps, more)?;
    Ok(Some(all))
}

/// DoAction.
pub(crate) fn do_action(
    alloc: Global,
    tree: &Tree,
    node: u32,
    args: Fields,
    known: &FaceData,
) -> Result<Option<StepList>, NoMemory>
    requires { IsKnown known.now }
    ensures { IfOk result
        (λ steps. ChangesActions tree.now known.now node ObjectMember.DoAction (fields_data args.entry) steps) }
{
    match place(first_signed(args)) {
        Some(index) => granted(alloc, tree, Edit::Press { node, index }, known),
        None => Ok(None),
    }
}
