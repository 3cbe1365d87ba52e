//! The trait of the objects behind nodes.

ghost use Rattle.std.specs.Prelude.{◌≡◌, ◌≤◌, ℕ, None, OnOk, OnErr, IfOk, IfErr};
ghost use Rattle.std.specs.Ordering.{nat_cmp};
ghost use Rattle.std.specs.FinMap as map;
ghost use Rattle.atspi_tree_model.specs.declared.contents.FaceKind.{FaceKind};
ghost use Rattle.atspi_faces.specs.face.Contents.{kind_of, caret_of, count_of, TakesMemory};
ghost use Rattle.atspi_faces.specs.face.Nodes.{Nodes, AreContents, IsNext, HasText, HasPart, CanChange, count_at};
ghost use Rattle.atspi_faces.specs.face.Nodes.{caret_at, part_at, marks_at, changed_at};

use crate::face::Change;
use atspi_base::{Marks, NoMemory, Text};
use atspi_tree_model::{FaceData, FaceKind};

/// An object that keeps contents of one kind for some nodes. A call changes what is kept for the node that it names,
/// and nothing else; the one refusal is want of memory, and it leaves all as it was.
pub trait Face: Drop {
    /// The kind, which never changes.
    ghost of_kind: { Self → FaceKind };

    /// Which one it is: of a box its number, which never changes, and 0 of any other.
    ghost number: { Self → ℕ };

    /// The contents of each node that is here.
    ghost nodes: { Self → Nodes };

    /// The kind. All contents are of it, with carets inside their texts and counts that fit.
    fn kind(&self) -> FaceKind
        ensures kind { result ≡ of_kind self.now }
        ensures contents { AreContents (of_kind self.now) (nodes self.now) };

    /// Opens a node with contents of the kind. `Err` hands the contents back, for want of memory.
    fn put_node(&mut self, node: u32, what: FaceData) -> Result<(), FaceData>
        requires fresh { map.get (nodes self.old) node ≡ None }
        requires right_kind { kind_of what ≡ of_kind self.old }
        requires caret_inside { caret_of what ≤ count_of what }
        ensures ok { OnOk result (nodes self.new ≡ map.insert (nodes self.old) node what) }
        ensures err { OnErr result (nodes self.new ≡ nodes self.old) }
        ensures returned { IfErr result (λ back. back ≡ what) }
        ensures same_kind { of_kind self.new ≡ of_kind self.old }
        ensures same_one { number self.new ≡ number self.old };

    /// Closes a node, if it is here.
    fn drop_node(&mut self, node: u32)
        ensures gone { nodes self.new ≡ map.remove (nodes self.old) node }
        ensures same_kind { of_kind self.new ≡ of_kind self.old }
        ensures same_one { number self.new ≡ number self.old };

    /// The least node here whose number is at least `from`.
    fn next_node(&self, from: u32) -> Option<u32>
        ensures { IsNext (nodes self.now) from result };

    /// How many characters, columns or actions the node has; 0 where it is not here.
    fn count(&self, node: u32) -> u32
        ensures { result ≡ count_at (nodes self.now) node };

    /// The caret of a text: the number of characters before it.
    fn caret(&self, node: u32) -> u32
        requires { HasText (nodes self.now) node }
        ensures { result ≡ caret_at (nodes self.now) node };

    /// Of a text, the characters from one place up to another; of actions, the name of the one at `from`. `Err` comes
    /// for want of memory.
    fn part(&self, node: u32, from: u32, to: u32) -> Result<Text, NoMemory>
        requires { HasPart (nodes self.now) node from to }
        ensures { IfOk result (λ text. text ≡ part_at (nodes self.now) node from to) };

    /// The text selections. `Err` comes for want of memory.
    fn marks(&self, node: u32) -> Result<Marks, NoMemory>
        requires { HasText (nodes self.now) node }
        ensures { IfOk result (λ marks. marks ≡ marks_at (nodes self.now) node) };

    /// Changes a text, inside it and with the caret inside afterwards. An insertion or a deletion also empties the text
    /// selections. `Err` comes for want of memory, at an insertion or at text selections of which there are some.
    fn change(&mut self, node: u32, what: &Change) -> Result<(), NoMemory>
        requires { CanChange (nodes self.old) node what.now }
        ensures ok { OnOk result (nodes self.new ≡ changed_at (nodes self.old) node what.now) }
        ensures err { OnErr result (nodes self.new ≡ nodes self.old) }
        ensures cause { OnErr result (TakesMemory what.now) }
        ensures same_kind { of_kind self.new ≡ of_kind self.old }
        ensures same_one { number self.new ≡ number self.old };
}
