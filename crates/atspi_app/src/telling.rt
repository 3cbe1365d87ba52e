//! What is told of steps, made before they are done.

ghost use Rattle.std.specs.Prelude.{◌≡◌, ◌++◌, IfOk, OnOk, map};
ghost use Rattle.atspi_tree_model.specs.Forest.{Forest};
ghost use Rattle.atspi_tree_model.specs.Row.{Each, TreeRow};
ghost use Rattle.atspi_tree_model.specs.Tree.{shape_of};
ghost use Rattle.atspi_app_signals.specs.Asked.{CanBeTold};
ghost use Rattle.atspi_app_signals.specs.Laws.{told_of_one};
ghost use Rattle.atspi_protocol.specs.exporting.Exporter.{sends};
ghost use Rattle.atspi_protocol.specs.exporting.Starting.{name_or_empty};
ghost use Rattle.atspi_protocol.specs.exporting.Telling.{step_told};
ghost use Rattle.atspi_app_known.specs.happenings.View.{happened};
ghost use Rattle.atspi_message_in_place.specs.View.{envelope_at};
ghost use Rattle.atspi_app_answers.specs.Replies.{sent_back};
ghost use Rattle.atspi_app.specs.called.Called.{reply_of};
ghost use Rattle.atspi_app.specs.inner.Seen.{AreUnnumbered};

use crate::called::sent_back;
use atspi_app_known::happenings::Happenings;
use atspi_app_known::starting::Known;
use atspi_app_signals::announced;
use atspi_base::{NoMemory, Text};
use atspi_message_in_place::MessageRef;
use atspi_protocol::ends::{CallError, Mail, Outbox};
use atspi_tree::Tree;
use atspi_tree_edits::copy_step;
use atspi_tree_model::{Step, StepList};
use atspi_types::Values;
use std::alloc::Global;

/// The messages of a mail, which have no numbers yet, come behind what is told. A mail is emptied by a queue, which
/// numbers them for itself.
fn push_all(alloc: Global, mail: &mut Mail, told: &mut Happenings) -> Result<(), NoMemory>
    requires { AreUnnumbered mail.old }
    ensures { OnOk result (happened told.new ≡ happened told.old ++ map sends mail.old) }
{
    let mut queue = Outbox::new(alloc);
    let Ok(()) = queue.post(mail) else {
        return Err(NoMemory);
    };
    while let Some(numbered) = queue.next() {
        let mut message = numbered;
        message.serial = 0;
        told.push_message(message)?;
    }
    Ok(())
}

/// A step, and its signals that some listener asks for.
fn push_told(
    alloc: Global,
    known: &Known,
    bus: &Text,
    tree: &Tree,
    step: &Step,
    told: &mut Happenings,
) -> Result<(), NoMemory>
    requires { CanBeTold tree.now step.now }
    ensures { OnOk result
        ((f : Forest TreeRow) → shape_of f ≡ tree.now.rows
        → happened told.new ≡ happened told.old ++ step_told known.now.heard bus.now f step.now) }
{
    let copy = copy_step(alloc, step)?;
    told.push_step(copy)?;
    let mut mail = announced(alloc, known.heard(), bus, tree, step)?;
    push_all(alloc, &mut mail, told)
}

/// The name of an application, empty before it has one.
pub(crate) fn own_name(alloc: Global, known: &Known) -> Result<Text, NoMemory>
    ensures { IfOk result (λ name. name ≡ name_or_empty known.now.name) }
{
    match known.name() {
        Some(name) => name.copy(alloc),
        None => Text::of(alloc, ""),
    }
}

/// Steps and their signals, each told of one tree.
fn each_told(
    alloc: Global,
    known: &Known,
    bus: &Text,
    tree: &Tree,
    steps: &[Step],
) -> Result<Happenings, NoMemory>
    requires { Each (CanBeTold tree.now) steps.now }
    ensures { IfOk result
        (λ told. (f : Forest TreeRow) → shape_of f ≡ tree.now.rows
        → happened told ≡ told_of_one known.now.heard bus.now f steps.now) }
{
    let mut told = Happenings::new(alloc);
    for step in steps {
        push_told(alloc, known, bus, tree, step, &mut told)?;
    }
    Ok(told)
}

/// What is told of steps before they are done.
pub(crate) fn told(
    alloc: Global,
    known: &Known,
    tree: &Tree,
    steps: &StepList,
) -> Result<Happenings, NoMemory>
    requires { Each (CanBeTold tree.now) steps.now }
    ensures { IfOk result
        (λ told. (f : Forest TreeRow) → shape_of f ≡ tree.now.rows
        → happened told ≡ told_of_one known.now.heard (name_or_empty known.now.name) f steps.now) }
{
    let bus = own_name(alloc, known)?;
    each_told(alloc, known, &bus, tree, steps.as_slice())
}

/// What is told of a call before its steps are done: the steps with their signals, and behind them the reply.
pub(crate) fn told_of_call(
    alloc: Global,
    known: &Known,
    tree: &Tree,
    call: &MessageRef,
    steps: &StepList,
    reply: Result<Values, CallError>,
) -> Result<Happenings, NoMemory>
    requires { Each (CanBeTold tree.now) steps.now }
    ensures { IfOk result
        (λ told. (f : Forest TreeRow) → shape_of f ≡ tree.now.rows
        → happened told
        ≡ told_of_one known.now.heard (name_or_empty known.now.name) f steps.now
        ++ map sends (sent_back (envelope_at call.now) (reply_of reply))) }
{
    let mut told = told(alloc, known, tree, steps)?;
    let mut mail = sent_back(alloc, call, reply)?;
    push_all(alloc, &mut mail, &mut told)?;
    Ok(told)
}
