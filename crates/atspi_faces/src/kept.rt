//! A face as an ordered table from node to contents, for any contents.

ghost use Rattle.std.specs.Prelude.{◌≡◌, ◌≤◌, None, OnOk, OnErr, option_copied};
ghost use Rattle.std.specs.FinMap as map;
ghost use Rattle.std.specs.Option.{option_map};
ghost use Rattle.atspi_faces.specs.face.Contents.{kind_of, caret_of, count_of};

use crate::contents::Contents;
use crate::face::{Change, Face, FaceData, FaceKind};
use atspi_base::{Marks, NoMemory, Text};
use std::alloc::Global;
use std::collections::BTreeMap;

/// A face that keeps contents of one form for each of its nodes.
#[derive(Drop)]
pub struct Kept<C: Contents> {
    alloc: Global,
    nodes: BTreeMap<u32, C>,
}

impl<C: Contents> Kept<C> {
    /// A face with no node, which takes no memory.
    pub fn new(alloc: Global) -> Kept<C>
        ensures kind { ⟦<Kept<C> as Face>⟧.of_kind result ≡ C.of_kind }
        ensures empty { ⟦<Kept<C> as Face>⟧.nodes result ≡ map.empty }
    {
        Kept {
            alloc,
            nodes: BTreeMap::new(alloc),
        }
    }

    /// The node's contents.
    fn find(&self, node: u32) -> Option<&C>
        ensures { map.get (⟦<Kept<C> as Face>⟧.nodes self.now) node ≡ option_map C.as_data (option_copied result) }
    {
        self.nodes.get(&node)
    }

    /// Opens a node with contents equal to those given.
    fn put_copy(&mut self, node: u32, what: &FaceData) -> Result<(), NoMemory>
        requires right_kind { kind_of what.now ≡ C.of_kind }
        requires caret_inside { caret_of what.now ≤ count_of what.now }
        ensures ok { OnOk result
            (⟦<Kept<C> as Face>⟧.nodes self.new ≡ map.insert (⟦<Kept<C> as Face>⟧.nodes self.old) node what.now) }
        ensures err { OnErr result (⟦<Kept<C> as Face>⟧.nodes self.new ≡ ⟦<Kept<C> as Face>⟧.nodes self.old) }
    {
        let Ok(contents) = C::copy_of(self.alloc, what) else {
            return Err(NoMemory);
        };
        match self.nodes.insert(node, contents) {
            Ok(_) => Ok(()),
            Err(_) => Err(NoMemory),
        }
    }
}

impl<C: Contents> Face for Kept<C> {
    ghost use Rattle.atspi_faces.specs.Kept.{nodes_of};

    ghost of_kind = { λ _. C.of_kind };

    ghost number = { λ _. 0 };

    ghost nodes = { λ f. nodes_of C.as_data f.nodes.entries };

    fn kind(&self) -> FaceKind {
        C::kind()
    }

    fn put_node(&mut self, node: u32, what: FaceData) -> Result<(), FaceData> {
        match self.put_copy(node, &what) {
            Ok(()) => Ok(()),
            Err(_) => Err(what),
        }
    }

    fn drop_node(&mut self, node: u32) {
        let _ = self.nodes.remove(&node);
    }

    fn next_node(&self, from: u32) -> Option<u32> {
        match self.nodes.range(from..).next() {
            Some((node, _)) => Some(*node),
            None => None,
        }
    }

    fn count(&self, node: u32) -> u32 {
        match self.find(node) {
            Some(contents) => contents.count(),
            None => 0,
        }
    }

    fn caret(&self, node: u32) -> u32 {
        let contents = self.find(node).unwrap();
        contents.caret()
    }

    #[tactic(auto, using(crate::proofs::AskedLemmas::may_ask))]
    fn part(&self, node: u32, from: u32, to: u32) -> Result<Text, NoMemory> {
        let contents = self.find(node).unwrap();
        contents.part(self.alloc, from, to)
    }

    fn marks(&self, node: u32) -> Result<Marks, NoMemory> {
        let contents = self.find(node).unwrap();
        contents.marks(self.alloc)
    }

    fn change(&mut self, node: u32, what: &Change) -> Result<(), NoMemory> {
        let alloc = self.alloc;
        match self.nodes.get_mut(&node) {
            Some(contents) => contents.change(alloc, what),
            None => unreachable!(),
        }
    }
}
