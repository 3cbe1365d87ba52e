//! What a line asks for is done.

ghost use Rattle.std.specs.Prelude.{◌≡◌, false, IfErr, IfOk, OnOk};
ghost use Rattle.atspi_tree_model.specs.Edits.{IsEdit};
ghost use Rattle.atspi_tree_model.specs.Row.{IsName};
ghost use Rattle.atspi_protocol.specs.exporting.Exporter.{begins};
ghost use Rattle.atspi_protocol.specs.exporting.Starting.{starts};
ghost use Rattle.atspi_protocol.specs.exporting.Taking.{is_spent};
ghost use Rattle.atspi_live_app.specs.Live.{IsKept, IsUndone, seen};
ghost use Rattle.atspi_live_app.specs.inner.Live.{IsLawful, IsStarted};
ghost use Rattle.atspi_live_app.specs.Pace.{rounds_of};
ghost use Rattle.atspi_live_app.specs.Standing.{Does, IsNumbered};
ghost use Rattle.atspi_live_app.specs.inner.Stops.{undone_of};
ghost use Rattle.atspi_live_app.specs.declared.asking.Ask.TheVariants as asks;

use crate::asking::Ask;
use atspi_app::{AppFault, Application};
use atspi_base::{NoMemory, Text};
use atspi_tree_model::{Edit, EditFault, NAME_LIMIT};
use std::alloc::Global;

/// Why what a line asks for is not done.
#[derive(Clone, Copy, Debug, PartialEq, Eq)]
pub(crate) enum Undone {
    /// It may not stand there.
    Form,
    Refused(EditFault),
    Spent,
    NoMemory,
}

/// Why an application does not make an edit.
fn undone_of(fault: AppFault) -> Undone
    ensures { result ≡ undone_of fault }
{
    match fault {
        AppFault::Refused(why) => Undone::Refused(why),
        AppFault::Spent => Undone::Spent,
        AppFault::NoMemory => Undone::NoMemory,
    }
}

/// A new application over a kit, started. It fails only for want of memory.
fn started<A: Application>(alloc: Global, name: Text, kit: A::Kit) -> Result<A, NoMemory>
    requires name { IsName name }
    requires kit { A.is_kit kit }
    ensures app { IfOk result (λ app. A.is_app app) }
    ensures starts { IfOk result (λ app. A.exporter app ≡ starts (begins name)) }
    ensures numbered { IfOk result (λ app. is_spent (A.exporter app) ≡ false) }
{
    let mut app = A::new(alloc, name, kit)?;
    match app.start(alloc) {
        Ok(()) => Ok(app),
        Err(_) => Err(NoMemory),
    }
}

/// The application starts, with the kit that is kept for it.
fn start<A: Application>(
    alloc: Global,
    name: Text,
    app: &mut Option<A>,
    kit: &mut Option<A::Kit>,
) -> Result<(), Undone>
    requires { IsKept A.is_app A.is_kit app.old kit.old }
    ensures ok { OnOk result
        (IsKept A.is_app A.is_kit app.new kit.new
        × Does (seen A.exporter app.old) (asks.Start name) (seen A.exporter app.new)) }
    ensures numbered { OnOk result (IsNumbered (seen A.exporter app.new)) }
    ensures err { IfErr result (λ undone. IsUndone undone (seen A.exporter app.old) (asks.Start name)) }
{
    if app.is_some() {
        return Err(Undone::Form);
    }
    if name.as_str().len() > NAME_LIMIT {
        return Err(Undone::Refused(EditFault::TextFull));
    }
    let Some(kit) = kit.take() else {
        return Err(Undone::NoMemory);
    };
    match started::<A>(alloc, name, kit) {
        Ok(begun) => {
            *app = Some(begun);
            Ok(())
        }
        Err(_) => Err(Undone::NoMemory),
    }
}

/// The application makes an edit.
fn make<A: Application>(alloc: Global, edit: &Edit, app: &mut Option<A>) -> Result<(), Undone>
    requires app { IsStarted A.is_app app.old }
    requires lawful { IsEdit edit.now }
    ensures app { IsStarted A.is_app app.new }
    ensures ok { OnOk result (Does (seen A.exporter app.old) (asks.Edit edit.now) (seen A.exporter app.new)) }
    ensures numbered { OnOk result (IsNumbered (seen A.exporter app.new)) }
    ensures err { IfErr result (λ undone. IsUndone undone (seen A.exporter app.old) (asks.Edit edit.now)) }
{
    let Some(app) = app else {
        return Err(Undone::Form);
    };
    match app.edit(alloc, edit) {
        Ok(()) => Ok(()),
        Err(fault) => Err(undone_of(fault)),
    }
}

/// What a line asks for is done. Answers how many rounds the line takes.
pub(crate) fn do_ask<A: Application>(
    alloc: Global,
    ask: Ask,
    app: &mut Option<A>,
    kit: &mut Option<A::Kit>,
) -> Result<u32, Undone>
    requires kept { IsKept A.is_app A.is_kit app.old kit.old }
    requires lawful { IsLawful ask }
    requires numbered { IsNumbered (seen A.exporter app.old) }
    ensures ok { OnOk result
        (IsKept A.is_app A.is_kit app.new kit.new × Does (seen A.exporter app.old) ask (seen A.exporter app.new)) }
    ensures numbered { OnOk result (IsNumbered (seen A.exporter app.new)) }
    ensures rounds { IfOk result (λ rounds. rounds ≡ rounds_of ask) }
    ensures err { IfErr result (λ undone. IsUndone undone (seen A.exporter app.old) ask) }
{
    match ask {
        Ask::Nothing => Ok(1),
        Ask::Start(name) => match start(alloc, name, app, kit) {
            Ok(()) => Ok(1),
            Err(undone) => Err(undone),
        },
        Ask::Edit(edit) => match make(alloc, &edit, app) {
            Ok(()) => Ok(1),
            Err(undone) => Err(undone),
        },
        Ask::Wait(rounds) => {
            if app.is_none() {
                return Err(Undone::Form);
            }
            Ok(rounds.max(1))
        }
    }
}
