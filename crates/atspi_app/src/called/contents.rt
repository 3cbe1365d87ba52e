//! Members that read the contents of a node, and those that change something.

ghost use Rattle.std.specs.Prelude.{◌≡◌, ◌∷◌, [], ℕ, List, None, Some, true, IfOk};
ghost use Rattle.atspi_types.specs.Data.{boolean_data};
ghost use Rattle.atspi_types.specs.DataView.{all_data};
ghost use Rattle.atspi_marshal_in_place.specs.Items.{fields_data};
ghost use Rattle.atspi_tree_model.specs.Forest.{has};
ghost use Rattle.atspi_tree_model.specs.RowRules.{rows};
ghost use Rattle.atspi_tree_model.specs.Tree.{IsTree, is_shape};
ghost use Rattle.atspi_protocol.specs.whole.Whole.{whole};
ghost use Rattle.atspi_protocol.specs.objects.Answers.{changes};
ghost use Rattle.atspi_protocol.specs.objects.Application.{Application};
ghost use Rattle.atspi_app_exported.specs.Doing.{CanBeDone};
ghost use Rattle.atspi_app_exported.specs.Parts.{AreKinds, faces_of, kinds_of};
ghost use Rattle.atspi_app_contents.specs.answers.Told as reads;
ghost use Rattle.atspi_app_contents.specs.changes.Changing as changing;
ghost use Rattle.atspi_app.specs.called.Called.{answer_of};
ghost use Rattle.atspi_app.specs.called.inner.Told.{ComesTo};

use crate::called::outcome::Called;
use atspi_app_contents::answers::{contents, reads_contents};
use atspi_app_contents::changes::change_of;
use atspi_base::{NoMemory, Text};
use atspi_faces::face::Face;
use atspi_marshal_in_place::Fields;
use atspi_protocol::members::ObjectMember;
use atspi_tree::Tree;
use atspi_tree_model::StepList;
use atspi_types::{Value, Values};
use std::alloc::Global;

/// Whether something was changed, as the one value of a reply.
fn whether(alloc: Global, changed: bool) -> Result<Values, NoMemory>
    ensures { IfOk result (λ values. all_data values ≡ boolean_data changed ∷ []) }
{
    let mut values = Values::new(alloc);
    values.push(Value::Bool(changed))?;
    Ok(values)
}

/// A member that reads the contents of a node that is there.
pub(crate) fn reading<C: Face, G: Face, D: Face>(
    alloc: Global,
    tree: &Tree,
    bus: &Text,
    id: i32,
    texts: &C,
    columns: &G,
    actions: &D,
    node: u32,
    member: ObjectMember,
    args: Fields,
) -> Result<Called, NoMemory>
    requires there { has (is_shape node) tree.now.rows ≡ true }
    requires kinds { AreKinds (kinds_of (C.of_kind texts.now) (G.of_kind columns.now) (D.of_kind actions.now)) }
    requires lawful { IsTree rows
        (whole tree.now.rows (faces_of (C.nodes texts.now) (G.nodes columns.now) (D.nodes actions.now)))
        tree.now.added }
    requires member { reads.reads_contents member ≡ true }
    ensures comes { IfOk result
        (λ c. ComesTo tree.now (faces_of (C.nodes texts.now) (G.nodes columns.now) (D.nodes actions.now)) bus.now id
        node member (fields_data args.entry) c) }
    ensures no_steps { IfOk result (λ c. c.steps ≡ []) }
{
    let values = contents(
        alloc, tree, bus, texts, columns, actions, node, member, args,
    )?;
    Ok(Called {
        reply: Ok(values),
        steps: StepList::new(alloc),
        id,
    })
}

/// What a call comes to that does these steps.
fn changed(alloc: Global, id: i32, steps: StepList) -> Result<Called, NoMemory>
    ensures { IfOk result (λ c. (a : Application) → a.id ≡ id → answer_of c ≡ changes a (Some steps)) }
{
    let values = whether(alloc, true)?;
    Ok(Called {
        reply: Ok(values),
        steps,
        id,
    })
}

/// What a call comes to that changes nothing.
fn unchanged(alloc: Global, id: i32) -> Result<Called, NoMemory>
    ensures { IfOk result (λ c. (a : Application) → a.id ≡ id → answer_of c ≡ changes a None) }
{
    let values = whether(alloc, false)?;
    Ok(Called {
        reply: Ok(values),
        steps: StepList::new(alloc),
        id,
    })
}

/// One or the other.
fn settled(alloc: Global, id: i32, steps: Option<StepList>) -> Result<Called, NoMemory>
    ensures { IfOk result (λ c. (a : Application) → a.id ≡ id → answer_of c ≡ changes a steps) }
{
    match steps {
        Some(steps) => changed(alloc, id, steps),
        None => unchanged(alloc, id),
    }
}

/// A member that changes something of a node that is there.
pub(crate) fn changing<C: Face, G: Face, D: Face>(
    alloc: Global,
    tree: &Tree,
    id: i32,
    texts: &C,
    columns: &G,
    actions: &D,
    node: u32,
    member: ObjectMember,
    args: Fields,
) -> Result<Called, NoMemory>
    requires there { has (is_shape node) tree.now.rows ≡ true }
    requires kinds { AreKinds (kinds_of (C.of_kind texts.now) (G.of_kind columns.now) (D.of_kind actions.now)) }
    requires lawful { IsTree rows
        (whole tree.now.rows (faces_of (C.nodes texts.now) (G.nodes columns.now) (D.nodes actions.now)))
        tree.now.added }
    requires member { changing.changes_contents member ≡ true }
    ensures comes { IfOk result
        (λ c. (name : List ℕ)
        → ComesTo tree.now (faces_of (C.nodes texts.now) (G.nodes columns.now) (D.nodes actions.now)) name id node
        member (fields_data args.entry) c) }
    ensures done { IfOk result (λ c. CanBeDone c.steps) }
{
    let _ = columns;
    let steps = change_of(alloc, tree, texts, actions, node, member, args)?;
    settled(alloc, id, steps)
}
