//! The application as a world and a live end hold it.

ghost use Rattle.std.specs.Prelude.{◌≡◌};
ghost use Rattle.atspi_app_exported.specs.Boxed.{faces_in, kinds_in};
ghost use Rattle.atspi_faces.specs.face.Boxes.{box_number};
ghost use Rattle.atspi_app_exported.specs.Parts.{AreEmpty, AreKinds, IsEmpty, IsOfTexts};
ghost use Rattle.atspi_app.specs.Boxed.{IsAppIn, boxes_in, exporter_in};

use crate::app::App;
use crate::fault::edit_fault;
use atspi_app_exported::Kit;
use atspi_app_known::application::{AppFault, Application};
use atspi_app_known::happenings::AppEvent;
use atspi_app_known::heeding::{heed, is_answered};
use atspi_base::{NoMemory, Text};
use atspi_faces::face::Face;
use atspi_message_in_place::MessageRef;
use atspi_protocol::ends::EndFault;
use atspi_tree::Tree;
use atspi_tree_model::Edit;
use std::alloc::Global;

impl Application for App {
    type Kit = Kit;

    type Spare = Box<dyn Face>;

    ghost is_app = { IsAppIn (λ box. (Face-box box).of_kind box.value) (λ box. (Face-box box).nodes box.value) };

    ghost exporter = { exporter_in (λ box. (Face-box box).nodes box.value) };

    ghost is_kit = { λ kit. AreKinds (kinds_in (λ box. (Face-box box).of_kind box.value) kit)
        × AreEmpty (faces_in (λ box. (Face-box box).nodes box.value) kit) };

    ghost is_spare = { λ spare. IsOfTexts ((Face-box spare).of_kind spare.value)
        × IsEmpty ((Face-box spare).nodes spare.value) };

    ghost texts = { λ app. (boxes_in app).chars };

    ghost number = { λ spare. box_number spare };

    fn new(alloc: Global, name: Text, kit: Kit) -> Result<App, NoMemory> {
        match App::new(alloc, name, kit) {
            Ok(app) => Ok(app),
            Err(_) => Err(NoMemory),
        }
    }

    fn tree(&self) -> &Tree {
        self.exported.tree()
    }

    fn start(&mut self, alloc: Global) -> Result<(), EndFault> {
        match self.known.start(alloc) {
            Ok(()) => {
                self.known.is_numbered();
                Ok(())
            }
            Err(fault) => Err(fault),
        }
    }

    fn take(&mut self, alloc: Global, message: &MessageRef<'_>) -> Result<(), EndFault> {
        if is_answered(&self.known, message) {
            return self.take_call(alloc, message);
        }
        match heed(&mut self.known, alloc, message) {
            Ok(()) => {
                self.known.is_numbered();
                Ok(())
            }
            Err(fault) => Err(fault),
        }
    }

    fn edit(&mut self, alloc: Global, edit: &Edit) -> Result<(), AppFault> {
        match self.exported.steps(alloc, edit) {
            Ok(steps) => self.make(alloc, edit, &steps),
            Err(fault) => Err(edit_fault(fault)),
        }
    }

    fn next(&mut self) -> Option<AppEvent> {
        self.known.next()
    }

    fn swap_face(&mut self, alloc: Global, spare: Box<dyn Face>) -> Result<(), NoMemory> {
        let _ = alloc;
        match self.swap_face(spare) {
            Ok(_) => Ok(()),
            Err(_) => Err(NoMemory),
        }
    }
}
