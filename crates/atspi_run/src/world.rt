//! The ends of this program's worlds, and what is done in one.

ghost use Rattle.std.specs.Prelude.{◌≡◌, All, IfOk, Ok, length};
ghost use Rattle.atspi_app_exported.specs.Parts.{AreEmpty, AreKinds, IsEmpty, IsOfTexts, faces_of, kinds_of};
ghost use Rattle.atspi_script_lines.specs.declared.limits.TheConstants.{APP_COUNT};
ghost use Rattle.atspi_run_replay.specs.Causes.{Causes};
ghost use Rattle.atspi_run.specs.inner.Tasks.{DoesTask, MayDo};
ghost use Rattle.atspi_trace.specs.Work.{spare_count};

use crate::reader_end::StageReader;
use crate::words::Task;
use atspi_app::{App, Kit};
use atspi_base::{Sink, Source};
use atspi_faces::face::Face;
use atspi_faces::{Deeds, GapText, Grid, PlainText};
use atspi_run_replay::{make, replay};
use atspi_world_ends::{Application, Follower};
use std::alloc::{AllocError, Global};

/// So many applications a world can start, and so often it can exchange a face.
const BOX_COUNT: usize = 16;

/// So many things, each made by a call.
fn supply<T: Drop, F: Fn() -> Result<T, AllocError>>(
    alloc: Global,
    count: usize,
    make: F,
) -> Result<Vec<T>, AllocError>
    requires { F.IsAlwaysCallable make }
    ensures each { IfOk result (λ things. All (λ thing. F.post make (Ok thing)) things.items) }
    ensures count { IfOk result (λ things. length things.items ≡ count) }
{
    let mut things = Vec::new(alloc);
    'things: for _ in 0..count {
        let thing = make()?;
        things.push(thing)?;
    }
    Ok(things)
}

/// Does what is asked for in a world over these kits and spares.
fn do_over<A: Application, R: Follower, S: Source, K: Sink>(
    alloc: Global,
    task: Task,
    source: &mut S,
    sink: &mut K,
    kits: Vec<A::Kit>,
    spares: Vec<A::Spare>,
) -> u8
    requires may { MayDo task }
    requires kits { All A.is_kit kits.items }
    requires spares { All A.is_spare spares.items }
    requires kit_count { length kits.items ≡ APP_COUNT }
    requires spare_count { length spares.items ≡ spare_count }
    ensures does { DoesTask task result (S.left source.old) (S.left source.new) (K.written sink.old)
        (K.written sink.new) }
    ensures causes { Causes result (S.faults source.old) (S.faults source.new) (K.faults sink.old) (K.faults sink.new) }
{
    match task {
        Task::Replay(options) => {
            replay::<A, R, S, K>(alloc, options, source, sink, kits, spares)
        }
        Task::Make(script) => {
            make::<A, R, K>(alloc, script.count, script.seed, sink, kits, spares)
        }
    }
}

/// Does what is asked for in a world of this program's ends.
pub fn do_task<S: Source, K: Sink>(alloc: Global, task: Task, source: &mut S, sink: &mut K) -> u8
    requires may { MayDo task }
    ensures does { DoesTask task result (S.left source.old) (S.left source.new) (K.written sink.old)
        (K.written sink.new) }
    ensures causes { Causes result (S.faults source.old) (S.faults source.new) (K.faults sink.old) (K.faults sink.new) }
{
    let kits = supply(
        alloc,
        BOX_COUNT,
        || -> Result<Kit, AllocError>
            ensures { IfOk result
                (λ kit. AreKinds
                (kinds_of (of_kind (kit.chars.vtable, kit.chars.value))
                (of_kind (kit.grid.vtable, kit.grid.value)) (of_kind (kit.deeds.vtable, kit.deeds.value)))
                × AreEmpty
                (faces_of (nodes (kit.chars.vtable, kit.chars.value)) (nodes (kit.grid.vtable, kit.grid.value))
                (nodes (kit.deeds.vtable, kit.deeds.value)))) }
        {
            let chars = Box::new(alloc, PlainText::new(alloc))?;
            let grid = Box::new(alloc, Grid::new(alloc))?;
            let deeds = Box::new(alloc, Deeds::new(alloc))?;
            Ok(Kit { chars, grid, deeds })
        },
    );
    let Ok(kits) = kits else {
        return 5;
    };
    let spares = supply(
        alloc,
        BOX_COUNT,
        || -> Result<Box<dyn Face>, AllocError>
            ensures { IfOk result (λ spare. IsOfTexts (of_kind spare) × IsEmpty (nodes spare)) }
        {
            let spare = Box::new(alloc, GapText::new(alloc))?;
            Ok(spare)
        },
    );
    let Ok(spares) = spares else {
        return 5;
    };
    do_over::<App, StageReader, S, K>(alloc, task, source, sink, kits, spares)
}
