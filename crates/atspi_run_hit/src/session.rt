//! What the lines before have made: a kit that is left, or an application that has started over it.

ghost use Rattle.std.specs.Prelude.{◌≡◌, [], None, IfOk, OnOk};
ghost use Rattle.std.specs.FinMap.{empty};
ghost use Rattle.atspi_tree_model.specs.Edits.{is_long_name};
ghost use Rattle.atspi_tree_model.specs.Row.{Holds, IsName};
ghost use Rattle.atspi_run_hit.specs.declared.line.HitLine.{HitLine as AnyLine};
ghost use Rattle.atspi_run_hit.specs.Scene.{begins};
ghost use Rattle.atspi_run_hit.specs.inner.Seen.{Answers, HasCalled, IsSession, MayDo, scene_of, seen};

use crate::line::HitLine;
use crate::naming::{Refused, Undone};
use crate::placed::Placed;
use crate::whole::Whole;
use atspi_base::{Bytes, NoMemory, Text};
use atspi_tree_model::{EditFault, NAME_LIMIT};
use std::alloc::Global;

/// What the lines before have made: before the start a kit is left.
#[derive(Drop)]
pub(crate) struct Session<T: Whole> {
    kit: Option<T::Kit>,
    placed: Option<Placed<T>>,
}

/// Whether a name is too long.
fn is_long(name: &Text) -> bool
    ensures { result ≡ is_long_name name.now }
{
    name.as_str().len() > NAME_LIMIT
}

/// A new application over a kit.
fn begun<T: Whole>(alloc: Global, name: &Text, kit: T::Kit) -> Result<Placed<T>, NoMemory>
    requires name { IsName name.now }
    requires kit { T.is_kit kit }
    ensures whole { IfOk result (λ placed. T.is_whole placed.whole) }
    ensures begins { IfOk result (λ placed. seen T.tree_of placed ≡ begins name.now) }
{
    let name = name.copy(alloc)?;
    match T::new(alloc, name, kit) {
        Ok(whole) => Ok(Placed::of(alloc, whole)),
        Err(none) => Err(none),
    }
}

impl<T: Whole> Session<T> {
    /// Nothing was done yet.
    pub(crate) fn new(kit: T::Kit) -> Session<T>
        requires { T.is_kit kit }
        ensures session { IsSession T.is_whole T.is_kit result }
        ensures none { scene_of T.tree_of result ≡ None }
    {
        Session {
            kit: Some(kit),
            placed: None,
        }
    }

    /// The application starts.
    fn start(&mut self, alloc: Global, name: &Text) -> Result<(), Undone>
        requires kit { Holds T.is_kit self.old.kit }
        ensures session { OnOk result (IsSession T.is_whole T.is_kit self.new) }
        ensures answers { Answers result None (AnyLine.App name.now) (scene_of T.tree_of self.new) [] }
    {
        if is_long(name) {
            return Err(Undone::Refused(Refused::Asked(EditFault::TextFull)));
        }
        let Some(kit) = self.kit.take() else {
            return Err(Undone::NoMemory);
        };
        match begun(alloc, name, kit) {
            Ok(placed) => {
                self.placed = Some(placed);
                Ok(())
            }
            Err(_) => Err(Undone::NoMemory),
        }
    }

    /// A line before the start.
    fn begin(&mut self, alloc: Global, line: &HitLine) -> Result<(), Undone>
        requires kit { Holds T.is_kit self.old.kit }
        requires none { self.old.placed ≡ None }
        ensures session { OnOk result (IsSession T.is_whole T.is_kit self.new) }
        ensures answers { Answers result None line.now (scene_of T.tree_of self.new) [] }
    {
        match line {
            HitLine::Nothing => Ok(()),
            HitLine::App(name) => self.start(alloc, name),
            HitLine::Edit(_) => Err(Undone::Refused(Refused::Form)),
            HitLine::Place { .. } => Err(Undone::Refused(Refused::Form)),
            HitLine::Call { .. } => Err(Undone::Refused(Refused::Form)),
            HitLine::Cell { .. } => Err(Undone::Refused(Refused::Form)),
            HitLine::Follow { .. } => Err(Undone::Refused(Refused::Form)),
        }
    }

    /// What a line asks for is done, and what it tells is put into what was empty.
    pub(crate) fn does(
        &mut self,
        alloc: Global,
        line: &HitLine,
        out: &mut Bytes,
    ) -> Result<(), Undone>
        requires may { MayDo line.now }
        requires session { IsSession T.is_whole T.is_kit self.old }
        requires few { HasCalled (scene_of T.tree_of self.old) 4294967294 }
        requires empty { out.old ≡ [] }
        ensures session { OnOk result (IsSession T.is_whole T.is_kit self.new) }
        ensures answers { Answers result (scene_of T.tree_of self.old) line.now (scene_of T.tree_of self.new) out.new }
    {
        let Some(placed) = &mut self.placed else {
            return self.begin(alloc, line);
        };
        placed.does(alloc, line, out)
    }
}
