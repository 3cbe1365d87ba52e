//! What one node of a face keeps, whatever its kind.

ghost use Rattle.std.specs.Prelude.{◌≡◌, ◌≤◌, OnOk, OnErr, IfOk};
ghost use Rattle.atspi_tree_model.specs.declared.contents.FaceKind.{FaceKind};
ghost use Rattle.atspi_tree_model.specs.declared.contents.FaceData.{FaceData};
ghost use Rattle.atspi_faces.specs.Asked.{MayAsk, MayChange};
ghost use Rattle.atspi_faces.specs.face.Contents.{kind_of, caret_of, count_of, marks_of, part_of, changed, TakesMemory};
ghost use Rattle.atspi_faces.specs.face.Contents.{IsContents};

use crate::face::{Change, FaceData, FaceKind};
use atspi_base::{Marks, NoMemory, Text};
use std::alloc::Global;

/// The contents of one node, in the form in which a face keeps them.
pub trait Contents: Drop {
    /// The kind of all such contents.
    ghost of_kind: { FaceKind };

    /// The contents as plain data.
    ghost as_data: { Self → FaceData };

    /// The kind.
    fn kind() -> FaceKind
        ensures { result ≡ of_kind };

    /// Contents equal to those given. `Err` comes for want of memory.
    fn copy_of(alloc: Global, what: &FaceData) -> Result<Self, NoMemory>
        requires right_kind { kind_of what.now ≡ of_kind }
        requires caret_inside { caret_of what.now ≤ count_of what.now }
        ensures { IfOk result (λ contents. as_data contents ≡ what.now) };

    /// How many characters, columns or actions there are.
    fn count(&self) -> u32
        ensures { result ≡ count_of (as_data self.now) };

    /// The caret of a text, else 0.
    fn caret(&self) -> u32
        ensures { result ≡ caret_of (as_data self.now) };

    /// The characters from one place up to another, or the name of an action; of columns nothing. `Err` comes for want
    /// of memory.
    fn part(&self, alloc: Global, from: u32, to: u32) -> Result<Text, NoMemory>
        requires { MayAsk (as_data self.now) from to }
        ensures { IfOk result (λ text. text ≡ part_of (as_data self.now) from to) };

    /// The text selections of a text, else none. `Err` comes for want of memory.
    fn marks(&self, alloc: Global) -> Result<Marks, NoMemory>
        ensures { IfOk result (λ marks. marks ≡ marks_of (as_data self.now)) };

    /// Changes a text; other contents stay. `Err` comes for want of memory and leaves it as it was.
    fn change(&mut self, alloc: Global, what: &Change) -> Result<(), NoMemory>
        requires { MayChange (as_data self.old) what.now }
        ensures ok { OnOk result (as_data self.new ≡ changed (as_data self.old) what.now) }
        ensures err { OnErr result (as_data self.new ≡ as_data self.old) }
        ensures cause { OnErr result (TakesMemory what.now) };

    /// Such contents are of the kind, with the caret inside and a count that fits.
    ghost sound: { (contents : Self) → IsContents of_kind (as_data contents) };
}
