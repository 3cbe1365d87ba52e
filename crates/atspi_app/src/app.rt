//! The application. It holds boxes, so it has no model: it is seen as `exporter` of `Application` says, and what holds
//! of it is `is_app`.

ghost use Rattle.std.specs.Prelude.{◌≡◌, false, IfErr, IfOk, IsErrOf, Ok, Err, OnErr, OnOk};
ghost use Rattle.atspi_tree_model.specs.Row.{IsName};
ghost use Rattle.atspi_tree_model.specs.declared.edit.EditFault.{EditFault};
ghost use Rattle.atspi_tree_model.specs.Edits.{IsEdit, steps_of_tree};
ghost use Rattle.atspi_protocol.specs.exporting.Exporter.{begins};
ghost use Rattle.atspi_protocol.specs.exporting.Taking.{app_edits, is_spent};
ghost use Rattle.atspi_app_known.specs.application.Seen.{IsSpentAfter};
ghost use Rattle.atspi_app_exported.specs.Doing.{AreOne};
ghost use Rattle.atspi_faces.specs.face.Boxes.{box_number};
ghost use Rattle.atspi_app_exported.specs.Parts.{AreEmpty, AreKinds, IsEmpty, kept_by, number_among, with_number};
ghost use Rattle.atspi_app.specs.Boxed.{boxes_in, contents_in};

use crate::telling::told;
use atspi_app_exported::{Boxes, Exported, Kit};
use atspi_app_known::application::{AppFault, Application};
use atspi_app_known::starting::Known;
use atspi_base::{NoMemory, Text};
use atspi_faces::face::Face;
use atspi_tree_model::{Edit, StepList};
use std::alloc::Global;

/// An application that exports a tree.
#[derive(Drop)]
pub struct App {
    pub(crate) exported: Exported,
    pub(crate) known: Known,
    /// The number that the registry gave it; -1 before.
    pub(crate) id: i32,
}

impl App {
    /// An application with the root alone, whose name has at most 511 bytes, over three empty boxes of their kinds.
    /// `Err` is want of memory, and hands both back.
    pub fn new(alloc: Global, name: Text, kit: Kit) -> Result<App, (Text, Kit)>
        requires name { IsName name }
        requires kinds { AreKinds (⟦<Kit as Boxes>⟧.kinds kit) }
        requires empty { AreEmpty (⟦<Kit as Boxes>⟧.faces kit) }
        ensures app { IfOk result (λ app. ⟦<App as Application>⟧.is_app app) }
        ensures begins { IfOk result (λ app. ⟦<App as Application>⟧.exporter app ≡ begins name) }
        ensures name_back { IfErr result (λ back. back.0 ≡ name) }
        ensures kinds_back { IfErr result (λ back. ⟦<Kit as Boxes>⟧.kinds back.1 ≡ ⟦<Kit as Boxes>⟧.kinds kit) }
        ensures empty_back { IfErr result (λ back. AreEmpty (⟦<Kit as Boxes>⟧.faces back.1)) }
    {
        match Exported::new(alloc, name, kit) {
            Ok(exported) => {
                let known = Known::new(alloc);
                Ok(App {
                    exported,
                    known,
                    id: -1,
                })
            }
            Err(back) => Err(back),
        }
    }

    /// Makes the steps of an edit. What is told of them is made before the first is done.
    pub(crate) fn make(
        &mut self,
        alloc: Global,
        edit: &Edit,
        steps: &StepList,
    ) -> Result<(), AppFault>
        requires lawful { IsEdit edit.now }
        requires one { AreOne steps.now }
        requires steps { steps_of_tree (⟦<App as Application>⟧.exporter self.old).tree
            (⟦<App as Application>⟧.exporter self.old).added edit.now ≡ Ok steps.now }
        requires app { ⟦<App as Application>⟧.is_app self.old }
        ensures app { ⟦<App as Application>⟧.is_app self.new }
        ensures ok { OnOk result (app_edits (⟦<App as Application>⟧.exporter self.old) edit.now
            ≡ Ok (⟦<App as Application>⟧.exporter self.new)) }
        ensures numbered { OnOk result (is_spent (⟦<App as Application>⟧.exporter self.new) ≡ false) }
        ensures never_refused { (fault : EditFault) → IsErrOf result (AppFault.Refused fault) → ⊥ }
        ensures spent { IsErrOf result AppFault.Spent
            → IsSpentAfter (app_edits (⟦<App as Application>⟧.exporter self.old) edit.now) }
        ensures err { OnErr result
            (⟦<App as Application>⟧.exporter self.new ≡ ⟦<App as Application>⟧.exporter self.old) }
    {
        match told(alloc, &self.known, self.exported.tree(), steps) {
            Ok(told) => {
                let mut told = told;
                match self.do_steps(steps, &mut told) {
                    Ok(()) => Ok(()),
                    Err(fault) => Err(AppFault::from(fault)),
                }
            }
            Err(none) => Err(AppFault::from(none)),
        }
    }

    /// Puts the contents of one kind into an empty box of that kind, which is then the application's; the old box comes
    /// back as it was. After want of memory the offered box comes back empty, and nothing changed. Costs the nodes with
    /// contents of that kind.
    pub fn swap_face(
        &mut self,
        new: Box<dyn Face>,
    ) -> Result<Box<dyn Face>, (Box<dyn Face>, NoMemory)>
        requires app { ⟦<App as Application>⟧.is_app self.old }
        requires empty { IsEmpty (nodes new) }
        ensures app { ⟦<App as Application>⟧.is_app self.new }
        ensures same { ⟦<App as Application>⟧.exporter self.new ≡ ⟦<App as Application>⟧.exporter self.old }
        ensures old { IfOk result (λ old. nodes old ≡ kept_by (of_kind new) (contents_in nodes self.old)) }
        ensures old_kind { IfOk result (λ old. of_kind old ≡ of_kind new) }
        ensures back { IfErr result (λ back. IsEmpty (nodes back.0)) }
        ensures back_kind { IfErr result (λ back. of_kind back.0 ≡ of_kind new) }
        ensures new_box { OnOk result
            (boxes_in self.new ≡ with_number (of_kind new) (box_number new) (boxes_in self.old)) }
        ensures old_box { IfOk result (λ old. box_number old ≡ number_among (of_kind new) (boxes_in self.old)) }
        ensures same_boxes { OnErr result (boxes_in self.new ≡ boxes_in self.old) }
        ensures back_box { IfErr result (λ back. box_number back.0 ≡ box_number new) }
    {
        self.exported.swap_face(new)
    }
}
