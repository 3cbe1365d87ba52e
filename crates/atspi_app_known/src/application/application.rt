//! An application, as a world and a live end hold it.

ghost use Rattle.std.specs.Prelude.{◌≡◌, ◌∷◌, [], ℕ, Ok, Err, false, true, IfOk, IsErrOf, MatchOption, OnOk, OnErr};
ghost use Rattle.atspi_tree_model.specs.Row.{IsName};
ghost use Rattle.atspi_tree_model.specs.Edits.{IsEdit};
ghost use Rattle.atspi_tree_model.specs.declared.edit.EditFault.{EditFault};
ghost use Rattle.atspi_message_in_place.specs.View.{envelope_at};
ghost use Rattle.atspi_protocol.specs.exporting.Exporter.{Exporter, begins};
ghost use Rattle.atspi_protocol.specs.exporting.Starting.{starts};
ghost use Rattle.atspi_protocol.specs.exporting.Taking.{app_takes, app_edits, is_spent};
ghost use Rattle.atspi_app_known.specs.application.Seen.{IsSpentAfter, shape_seen};
ghost use Rattle.atspi_app_known.specs.happenings.Happened.{happening_of};

use crate::application::fault::AppFault;
use crate::happenings::AppEvent;
use atspi_base::{NoMemory, Text};
use atspi_message_in_place::MessageRef;
use atspi_protocol::ends::EndFault;
use atspi_tree::Tree;
use atspi_tree_model::Edit;
use std::alloc::Global;

/// An application that exports a tree. It is seen as `exporter` says, and `is_app` holds of it at any time. Its texts,
/// columns and actions lie in what it was made with, a kit; a spare takes the place of where its texts lie.
pub trait Application: Drop {
    type Kit: Drop;

    type Spare: Drop;

    ghost is_app: { Self → Type 0 };

    ghost exporter: { Self → Exporter };

    ghost is_kit: { Self.Kit → Type 0 };

    ghost is_spare: { Self.Spare → Type 0 };

    /// Which one its texts lie in: a number that no other has at the same time.
    ghost texts: { Self → ℕ };

    /// The number of a spare.
    ghost number: { Self.Spare → ℕ };

    /// An application with the root alone, over an empty kit.
    fn new(alloc: Global, name: Text, kit: Self::Kit) -> Result<Self, NoMemory>
        requires name { IsName name }
        requires kit { is_kit kit }
        ensures app { IfOk result (λ app. is_app app) }
        ensures begins { IfOk result (λ app. exporter app ≡ begins name) };

    /// The shape of its tree.
    fn tree(&self) -> &Tree
        ensures { result.now ≡ shape_seen (exporter self.now) };

    /// Begins the start: Hello is queued. It is the first call. Spent exactly where its number would pass
    /// 4,294,967,295; after a fault all is as before.
    fn start(&mut self, alloc: Global) -> Result<(), EndFault>
        requires app { is_app self.old }
        ensures app { is_app self.new }
        ensures ok { OnOk result (exporter self.new ≡ starts (exporter self.old)) }
        ensures numbered { OnOk result (is_spent (exporter self.new) ≡ false) }
        ensures spent { IsErrOf result EndFault.Spent → is_spent (starts (exporter self.old)) ≡ true }
        ensures err { OnErr result (exporter self.new ≡ exporter self.old) };

    /// Takes a message: what happens is queued, steps and their signals before a reply. Spent exactly where its
    /// messages would pass number 4,294,967,295. After a fault all is as before.
    fn take(&mut self, alloc: Global, message: &MessageRef<'_>) -> Result<(), EndFault>
        requires app { is_app self.old }
        ensures app { is_app self.new }
        ensures ok { OnOk result (exporter self.new ≡ app_takes (exporter self.old) (envelope_at message.now)) }
        ensures numbered { OnOk result (is_spent (exporter self.new) ≡ false) }
        ensures spent { IsErrOf result EndFault.Spent
            → is_spent (app_takes (exporter self.old) (envelope_at message.now)) ≡ true }
        ensures err { OnErr result (exporter self.new ≡ exporter self.old) };

    /// Makes an edit of its user: its steps and their signals are queued. Refused exactly by the first refusal of the
    /// edit; Spent exactly where an edit that is not refused would pass number 4,294,967,295. After a fault all is as
    /// before.
    fn edit(&mut self, alloc: Global, edit: &Edit) -> Result<(), AppFault>
        requires lawful { IsEdit edit.now }
        requires app { is_app self.old }
        ensures app { is_app self.new }
        ensures ok { OnOk result (app_edits (exporter self.old) edit.now ≡ Ok (exporter self.new)) }
        ensures numbered { OnOk result (is_spent (exporter self.new) ≡ false) }
        ensures refused { (fault : EditFault) → IsErrOf result (AppFault.Refused fault)
            → app_edits (exporter self.old) edit.now ≡ Err fault }
        ensures spent { IsErrOf result AppFault.Spent → IsSpentAfter (app_edits (exporter self.old) edit.now) }
        ensures err { OnErr result (exporter self.new ≡ exporter self.old) };

    /// The oldest of what is queued, which is no longer queued. Where nothing is, all stays as it is.
    fn next(&mut self) -> Option<AppEvent>
        requires app { is_app self.old }
        ensures app { is_app self.new }
        ensures empty { MatchOption result ((exporter self.new).out ≡ (exporter self.old).out)
            (λ event. (exporter self.new).next ≡ (exporter self.old).next) }
        ensures front { MatchOption result ((exporter self.old).out ≡ [])
            (λ event. (exporter self.old).out ≡ happening_of event ∷ (exporter self.new).out) }
        ensures rest { exporter self.new ≡ record (exporter self.old) { out = (exporter self.new).out } };

    /// Its texts lie in the spare from now on. After want of memory they lie where they did.
    fn swap_face(&mut self, alloc: Global, spare: Self::Spare) -> Result<(), NoMemory>
        requires spare { is_spare spare }
        requires app { is_app self.old }
        ensures app { is_app self.new }
        ensures same { exporter self.new ≡ exporter self.old }
        ensures moved { OnOk result (texts self.new ≡ number spare) }
        ensures stay { OnErr result (texts self.new ≡ texts self.old) };
}
