//! Names of actions.

ghost use Rattle.std.specs.Prelude.{◌<◌, length};

use crate::contents::Contents;
use crate::face::{Change, FaceData, FaceKind};
use crate::kept::Kept;
use atspi_base::{Marks, NoMemory, Text, Texts};
use std::alloc::Global;

/// The names of the actions of a node, in order.
#[derive(Drop)]
pub struct Actions {
    names: Texts,
    ghost counted: { length names < 4294967296 },
}

/// A face of actions.
pub type Deeds = Kept<Actions>;

impl Contents for Actions {
    ghost use Rattle.atspi_tree_model.specs.declared.contents.FaceKind.TheVariants.{Deeds as deeds_kind};
    ghost use Rattle.atspi_faces.specs.Actions.{actions_data, actions_sound};

    ghost of_kind = { deeds_kind };

    ghost as_data = { actions_data };

    ghost sound = { actions_sound };

    fn kind() -> FaceKind {
        FaceKind::Deeds
    }

    // more names than a u32 counts find no room
    fn copy_of(alloc: Global, what: &FaceData) -> Result<Actions, NoMemory> {
        match what {
            FaceData::Deeds(names) => {
                if (u32::MAX as usize) < names.len() {
                    return Err(NoMemory);
                }
                Ok(Actions {
                    names: names.copy(alloc)?,
                })
            }
            FaceData::Chars { .. } => unreachable!(),
            FaceData::Grid(_) => unreachable!(),
        }
    }

    fn count(&self) -> u32 {
        self.names.len() as u32
    }

    fn caret(&self) -> u32 {
        0
    }

    fn part(&self, alloc: Global, from: u32, _to: u32) -> Result<Text, NoMemory> {
        self.names.as_slice()[from as usize].copy(alloc)
    }

    fn marks(&self, alloc: Global) -> Result<Marks, NoMemory> {
        Ok(Marks::new(alloc))
    }

    fn change(&mut self, _alloc: Global, _what: &Change) -> Result<(), NoMemory> {
        Ok(())
    }
}
