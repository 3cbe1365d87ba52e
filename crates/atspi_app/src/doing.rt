//! Steps are done, and what is told of them is queued.

ghost use Rattle.std.specs.Prelude.{◌≡◌, false, true, IsErrOf, OnErr, OnOk};
ghost use Rattle.atspi_tree_model.specs.RowRules.{rows};
ghost use Rattle.atspi_tree_model.specs.Tree.{AllApply};
ghost use Rattle.atspi_protocol.specs.exporting.Exporter.{queues};
ghost use Rattle.atspi_protocol.specs.exporting.Taking.{is_spent, stepped};
ghost use Rattle.atspi_app_known.specs.happenings.Room.{HasRoom};
ghost use Rattle.atspi_app_known.specs.happenings.View.{happened};
ghost use Rattle.atspi_app_exported.specs.Doing.{CanBeDone};

use crate::app::App;
use atspi_app_known::application::Application;
use atspi_app_known::happenings::Happenings;
use atspi_base::NoMemory;
use atspi_protocol::ends::EndFault;
use atspi_tree_model::StepList;

impl App {
    /// Does steps, and queues what was told of them before. Room for that is made first, so that after a fault all is
    /// as before.
    pub(crate) fn do_steps(
        &mut self,
        steps: &StepList,
        told: &mut Happenings,
    ) -> Result<(), EndFault>
        requires done { CanBeDone steps.now }
        requires app { ⟦<App as Application>⟧.is_app self.old }
        requires apply { AllApply rows (⟦<App as Application>⟧.exporter self.old).tree
            (⟦<App as Application>⟧.exporter self.old).added steps.now }
        ensures app { ⟦<App as Application>⟧.is_app self.new }
        ensures ok { OnOk result
            (⟦<App as Application>⟧.exporter self.new
            ≡ queues (stepped (⟦<App as Application>⟧.exporter self.old) steps.now) (happened told.old)) }
        ensures numbered { OnOk result (is_spent (⟦<App as Application>⟧.exporter self.new) ≡ false) }
        ensures spent { IsErrOf result EndFault.Spent
            → is_spent (queues (stepped (⟦<App as Application>⟧.exporter self.old) steps.now) (happened told.old))
            ≡ true }
        ensures err { OnErr result
            (⟦<App as Application>⟧.exporter self.new ≡ ⟦<App as Application>⟧.exporter self.old) }
    {
        match self.known.reserve(told) {
            Ok(()) => match self.do_in_room(steps, told) {
                Ok(()) => Ok(()),
                Err(none) => Err(EndFault::from(none)),
            },
            Err(fault) => Err(fault),
        }
    }

    /// Does steps, and queues what was told of them before, for which room was made.
    fn do_in_room(&mut self, steps: &StepList, told: &mut Happenings) -> Result<(), NoMemory>
        requires room { HasRoom self.old.known.queue told.old }
        requires done { CanBeDone steps.now }
        requires app { ⟦<App as Application>⟧.is_app self.old }
        requires apply { AllApply rows (⟦<App as Application>⟧.exporter self.old).tree
            (⟦<App as Application>⟧.exporter self.old).added steps.now }
        ensures app { ⟦<App as Application>⟧.is_app self.new }
        ensures ok { OnOk result
            (⟦<App as Application>⟧.exporter self.new
            ≡ queues (stepped (⟦<App as Application>⟧.exporter self.old) steps.now) (happened told.old)) }
        ensures numbered { OnOk result (is_spent (⟦<App as Application>⟧.exporter self.new) ≡ false) }
        ensures err { OnErr result
            (⟦<App as Application>⟧.exporter self.new ≡ ⟦<App as Application>⟧.exporter self.old) }
    {
        match self.exported.apply_call(steps) {
            Ok(()) => {
                self.known.post_in_room(told);
                self.known.is_numbered();
                Ok(())
            }
            Err(none) => Err(none),
        }
    }
}
