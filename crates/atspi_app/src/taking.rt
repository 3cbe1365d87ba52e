//! The calls that an application takes.

ghost use Rattle.std.specs.Prelude.{◌≡◌, false, true, IfOk, IsErrOf, OnErr, OnOk};
ghost use Rattle.atspi_tree_model.specs.RowRules.{rows};
ghost use Rattle.atspi_tree_model.specs.Tree.{AllApply};
ghost use Rattle.atspi_message_in_place.specs.View.{envelope_at};
ghost use Rattle.atspi_protocol.specs.exporting.Exporter.{queues};
ghost use Rattle.atspi_protocol.specs.exporting.Starting.{name_or_empty};
ghost use Rattle.atspi_protocol.specs.exporting.Taking.{answer_to, app_takes, is_spent, stepped};
ghost use Rattle.atspi_app_known.specs.happenings.View.{happened};
ghost use Rattle.atspi_app_exported.specs.Doing.{CanBeDone};
ghost use Rattle.atspi_app.specs.called.Called.{answer_of};
ghost use Rattle.atspi_app_known.specs.heeding.Heeding.{is_answered};

use crate::app::App;
use crate::called::{Called, called};
use crate::telling::{own_name, told_of_call};
use atspi_app_known::application::Application;
use atspi_app_known::happenings::Happenings;
use atspi_base::NoMemory;
use atspi_message_in_place::MessageRef;
use atspi_protocol::ends::EndFault;
use atspi_tree_model::StepList;
use std::alloc::Global;

impl App {
    /// What a call comes to.
    fn called(&self, alloc: Global, call: &MessageRef<'_>) -> Result<Called, NoMemory>
        requires { ⟦<App as Application>⟧.is_app self.now }
        ensures comes { IfOk result
            (λ c. answer_to (⟦<App as Application>⟧.exporter self.now) (name_or_empty self.now.known.name)
            (envelope_at call.now) ≡ answer_of c) }
        ensures done { IfOk result (λ c. CanBeDone c.steps) }
    {
        let bus = own_name(alloc, &self.known)?;
        let exported = &self.exported;
        called(
            alloc,
            exported.tree(),
            &bus,
            self.id,
            exported.chars(),
            exported.grid(),
            exported.deeds(),
            call,
        )
    }

    /// Does steps, queues what was told of them and of the reply before, and has another number then.
    fn do_call(&mut self, steps: &StepList, id: i32, told: &mut Happenings) -> Result<(), EndFault>
        requires done { CanBeDone steps.now }
        requires app { ⟦<App as Application>⟧.is_app self.old }
        requires apply { AllApply rows (⟦<App as Application>⟧.exporter self.old).tree
            (⟦<App as Application>⟧.exporter self.old).added steps.now }
        ensures app { ⟦<App as Application>⟧.is_app self.new }
        ensures ok { OnOk result
            ((⟦<App as Application>⟧.exporter self.new)
            ≡ queues (record (stepped (⟦<App as Application>⟧.exporter self.old) steps.now) { id = id })
            (happened told.old)) }
        ensures numbered { OnOk result (is_spent (⟦<App as Application>⟧.exporter self.new) ≡ false) }
        ensures spent { IsErrOf result EndFault.Spent
            → is_spent
            (queues (record (stepped (⟦<App as Application>⟧.exporter self.old) steps.now) { id = id })
            (happened told.old)) ≡ true }
        ensures err { OnErr result
            ((⟦<App as Application>⟧.exporter self.new) ≡ (⟦<App as Application>⟧.exporter self.old)) }
    {
        match self.do_steps(steps, told) {
            Ok(()) => {
                self.id = id;
                Ok(())
            }
            Err(fault) => Err(fault),
        }
    }

    /// Does what a call comes to: its steps are done and told, and behind them its reply is queued. All that is told is
    /// made before the first step is done.
    fn settle(&mut self, alloc: Global, call: &MessageRef<'_>, what: Called) -> Result<(), EndFault>
        requires answered { is_answered (⟦<App as Application>⟧.exporter self.old) (envelope_at call.now) ≡ true }
        requires comes { answer_to (⟦<App as Application>⟧.exporter self.old) (name_or_empty self.old.known.name)
            (envelope_at call.now) ≡ answer_of what }
        requires done { CanBeDone what.steps }
        requires app { ⟦<App as Application>⟧.is_app self.old }
        ensures app { ⟦<App as Application>⟧.is_app self.new }
        ensures ok { OnOk result
            ((⟦<App as Application>⟧.exporter self.new)
            ≡ app_takes (⟦<App as Application>⟧.exporter self.old) (envelope_at call.now)) }
        ensures numbered { OnOk result (is_spent (⟦<App as Application>⟧.exporter self.new) ≡ false) }
        ensures spent { IsErrOf result EndFault.Spent
            → is_spent (app_takes (⟦<App as Application>⟧.exporter self.old) (envelope_at call.now)) ≡ true }
        ensures err { OnErr result
            ((⟦<App as Application>⟧.exporter self.new) ≡ (⟦<App as Application>⟧.exporter self.old)) }
    {
        let Called { reply, steps, id } = what;
        match told_of_call(
            alloc,
            &self.known,
            self.exported.tree(),
            call,
            &steps,
            reply,
        ) {
            Ok(told) => {
                let mut told = told;
                self.do_call(&steps, id, &mut told)
            }
            Err(none) => Err(EndFault::from(none)),
        }
    }

    /// Takes a call that is answered.
    pub(crate) fn take_call(&mut self, alloc: Global, call: &MessageRef<'_>) -> Result<(), EndFault>
        requires answered { is_answered (⟦<App as Application>⟧.exporter self.old) (envelope_at call.now) ≡ true }
        requires app { ⟦<App as Application>⟧.is_app self.old }
        ensures app { ⟦<App as Application>⟧.is_app self.new }
        ensures ok { OnOk result
            ((⟦<App as Application>⟧.exporter self.new)
            ≡ app_takes (⟦<App as Application>⟧.exporter self.old) (envelope_at call.now)) }
        ensures numbered { OnOk result (is_spent (⟦<App as Application>⟧.exporter self.new) ≡ false) }
        ensures spent { IsErrOf result EndFault.Spent
            → is_spent (app_takes (⟦<App as Application>⟧.exporter self.old) (envelope_at call.now)) ≡ true }
        ensures err { OnErr result
            ((⟦<App as Application>⟧.exporter self.new) ≡ (⟦<App as Application>⟧.exporter self.old)) }
    {
        match self.called(alloc, call) {
            Ok(what) => self.settle(alloc, call, what),
            Err(none) => Err(EndFault::from(none)),
        }
    }
}
