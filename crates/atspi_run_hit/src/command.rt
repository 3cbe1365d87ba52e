//! The command `hit`: an application that exports over new boxes.

ghost use Rattle.atspi_run_hit.specs.Run.{HitDone};
ghost use Rattle.atspi_run_input.specs.Causes.{Causes};
ghost use Rattle.atspi_run_input.specs.declared.input.TheConstants.{INPUT_LIMIT};

use crate::exported::EmptyBoxes;
use crate::running::hit_over;
use atspi_app_exported::Exported;
use atspi_base::{Sink, Source};
use atspi_faces::{Deeds, Grid, PlainText};
use std::alloc::Global;

/// Reads an input, does its lines in an application that is on no bus, and writes what they tell. The first line that
/// is neither empty nor a comment is `app Q`; each other is an edit, `place N X Y W H`, `extents N`, `inside N X Y`,
/// `point N X Y`, `cell N I WAY` or `follow N K`.
///
/// Status 0: the input was read to its end, and all its lines were done. 1: a line is refused, and those before it were
/// done. 3: the source failed, behind whole lines that were done. 4: the sink failed. 5: no memory is left. 8: the
/// input is longer than the limit, and the whole lines inside it were done.
pub fn hit<S: Source, K: Sink>(alloc: Global, source: &mut S, sink: &mut K) -> u8
    ensures done { HitDone INPUT_LIMIT result (S.left source.old) (S.left source.new) (K.written sink.old)
        (K.written sink.new) }
    ensures causes { Causes result (S.faults source.old) (S.faults source.new) (K.faults sink.old) (K.faults sink.new) }
{
    let Ok(chars) = Box::new(alloc, PlainText::new(alloc)) else {
        return 5;
    };
    let Ok(grid) = Box::new(alloc, Grid::new(alloc)) else {
        return 5;
    };
    let Ok(deeds) = Box::new(alloc, Deeds::new(alloc)) else {
        return 5;
    };
    let kit = EmptyBoxes { chars, grid, deeds };
    hit_over::<Exported, S, K>(alloc, source, sink, kit)
}
