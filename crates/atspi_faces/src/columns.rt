//! Counts of columns.

ghost use Rattle.std.specs.Prelude.{◌<◌};

use crate::contents::Contents;
use crate::face::{Change, FaceData, FaceKind};
use crate::kept::Kept;
use atspi_base::{Marks, NoMemory, Text};
use std::alloc::Global;

/// How many columns the table of a node has.
#[derive(Drop)]
pub struct Columns {
    columns: u32,
    ghost counted: { columns < 4294967296 },
}

/// A face of column counts.
pub type Grid = Kept<Columns>;

impl Contents for Columns {
    ghost use Rattle.atspi_tree_model.specs.declared.contents.FaceKind.TheVariants.{Grid as grid_kind};
    ghost use Rattle.atspi_faces.specs.Columns.{columns_data, columns_sound};

    ghost of_kind = { grid_kind };

    ghost as_data = { columns_data };

    ghost sound = { columns_sound };

    fn kind() -> FaceKind {
        FaceKind::Grid
    }

    fn copy_of(_alloc: Global, what: &FaceData) -> Result<Columns, NoMemory> {
        match what {
            FaceData::Grid(columns) => Ok(Columns { columns: *columns }),
            FaceData::Chars { .. } => unreachable!(),
            FaceData::Deeds(_) => unreachable!(),
        }
    }

    fn count(&self) -> u32 {
        self.columns
    }

    fn caret(&self) -> u32 {
        0
    }

    fn part(&self, alloc: Global, _from: u32, _to: u32) -> Result<Text, NoMemory> {
        Text::of(alloc, "")
    }

    fn marks(&self, alloc: Global) -> Result<Marks, NoMemory> {
        Ok(Marks::new(alloc))
    }

    fn change(&mut self, _alloc: Global, _what: &Change) -> Result<(), NoMemory> {
        Ok(())
    }
}
