//! Texts that are kept in a buffer with a gap at the last place of change.

ghost use Rattle.std.specs.Prelude.{◌≤◌, ◌<◌, length};

use crate::contents::Contents;
use crate::face::{Change, FaceData, FaceKind};
use crate::gap::Gap;
use crate::kept::Kept;
use crate::selections::copy_marks;
use atspi_base::{Marks, NoMemory, Text};
use std::alloc::Global;

/// The text of a node in a buffer with a gap, with its caret and its text selections.
#[derive(Drop)]
pub struct GapChars {
    text: Gap,
    caret: u32,
    marks: Marks,
    ghost inside: { caret ≤ length text },
    ghost counted: { length text < 4294967296 },
}

/// A face of texts, each kept in one buffer with a gap at the last place of change.
pub type GapText = Kept<GapChars>;

impl Contents for GapChars {
    ghost use Rattle.atspi_tree_model.specs.declared.contents.FaceKind.TheVariants.{Chars as chars_kind};
    ghost use Rattle.atspi_faces.specs.Gapped.{gap_data, gap_sound};

    ghost of_kind = { chars_kind };

    ghost as_data = { gap_data };

    ghost sound = { gap_sound };

    fn kind() -> FaceKind {
        FaceKind::Chars
    }

    fn copy_of(alloc: Global, what: &FaceData) -> Result<GapChars, NoMemory> {
        match what {
            FaceData::Chars { text, caret, marks } => {
                let text = Gap::copy_of(alloc, text)?;
                let marks = marks.copy(alloc)?;
                Ok(GapChars {
                    text,
                    caret: *caret,
                    marks,
                })
            }
            FaceData::Grid(_) => unreachable!(),
            FaceData::Deeds(_) => unreachable!(),
        }
    }

    fn count(&self) -> u32 {
        self.text.count()
    }

    fn caret(&self) -> u32 {
        self.caret
    }

    fn part(&self, alloc: Global, from: u32, to: u32) -> Result<Text, NoMemory> {
        self.text.part(alloc, from, to)
    }

    fn marks(&self, alloc: Global) -> Result<Marks, NoMemory> {
        self.marks.copy(alloc)
    }

    fn change(&mut self, alloc: Global, what: &Change) -> Result<(), NoMemory> {
        match what {
            Change::Insert { at, text } => {
                self.text.insert(alloc, *at, text)?;
                self.marks = Marks::new(alloc);
            }
            Change::Delete { at, len } => {
                self.text.delete(*at, *len);
                self.marks = Marks::new(alloc);
            }
            Change::Caret(to) => self.caret = *to,
            Change::Marks(marks) => self.marks = copy_marks(alloc, marks)?,
        }
        Ok(())
    }
}
