//! Doing the lines of a script, one after another, and writing what each adds to the trace.

ghost use Rattle.std.specs.Prelude.{◌≡◌, [], All, OnOk, OnErr, length};
ghost use Rattle.std.specs.Io.KnownBytes.{Appends};
ghost use Rattle.atspi_script_lines.specs.declared.limits.TheConstants.{APP_COUNT, QUOTA_MOST};
ghost use Rattle.atspi_trace.specs.play.Playing.{first_playing};
ghost use Rattle.atspi_world.specs.Stage.{IsStage, trace_of};
ghost use Rattle.atspi_world.specs.Worlds.{staged, IsPlaying};
ghost use Rattle.atspi_trace.specs.Work.{spare_count};
ghost use Rattle.atspi_run_replay.specs.Lines.{lines_read};
ghost use Rattle.atspi_run_replay.specs.Names.{refused_text};
ghost use Rattle.atspi_run_replay.specs.Play.{Played};
ghost use Rattle.atspi_run_replay.specs.inner.Play.{BlamesWrite, Did, DoesLine, Ended, IfHalted, IfRefused};
ghost use Rattle.atspi_run_replay.specs.Play.{PlayedHalted, PlayedPart, PlayedRefused};
ghost use Rattle.atspi_run_replay.specs.inner.Play.{RefusedIn, StoppedAt};

use crate::lines::next_line;
use crate::naming::{Stop, stop_of_act, stop_of_line};
use crate::serials::{all_fit, fit_from};
use crate::telling::{finish, refuse, write_trace};
use atspi_base::Sink;
use atspi_script_lines::parse_line;
use atspi_trace_texts::TraceOptions;
use atspi_world::Stage;
use atspi_world_ends::{Application, Follower};
use std::alloc::Global;

/// Reads a line, and lets the world do it.
fn do_line<A: Application, R: Follower>(
    alloc: Global,
    world: &mut Stage<A, R>,
    bytes: &[u8],
) -> Result<(), Stop>
    requires stage { IsStage A.is_app R.is_follower A.is_kit A.is_spare world.old }
    ensures stage { OnOk result (IsStage A.is_app R.is_follower A.is_kit A.is_spare world.new) }
    ensures line { DoesLine result bytes.now (staged A.exporter R.follower world.old)
        (staged A.exporter R.follower world.new) }
{
    let from = world.trace().len();
    match parse_line(alloc, bytes) {
        Err(fault) => Err(stop_of_line(fault)),
        Ok(line) => match world.act(&line) {
            Ok(()) => {
                fit_from(world.trace(), from);
                Ok(())
            }
            Err(fault) => {
                all_fit(world.trace());
                Err(stop_of_act(fault))
            }
        },
    }
}

/// Does a line, and writes what it added to the trace, or that it is refused. Lines are counted from 1.
fn play_line<A: Application, R: Follower, K: Sink>(
    alloc: Global,
    world: &mut Stage<A, R>,
    options: TraceOptions,
    number: u64,
    line: &[u8],
    sink: &mut K,
) -> Result<(), Stop>
    requires stage { IsStage A.is_app R.is_follower A.is_kit A.is_spare world.old }
    ensures stage { OnOk result (IsStage A.is_app R.is_follower A.is_kit A.is_spare world.new) }
    ensures ok { OnOk result
        (Did options line.now (staged A.exporter R.follower world.old) (staged A.exporter R.follower world.new)
        (K.written sink.old) (K.written sink.new)) }
    ensures halted { IfHalted result
        (λ why. Ended options line.now why (staged A.exporter R.follower world.old)
        (staged A.exporter R.follower world.new) (K.written sink.old) (K.written sink.new)) }
    ensures refused { IfRefused result
        (λ why. RefusedIn (staged A.exporter R.follower world.old) line.now why
        × Appends (K.written sink.old) (K.written sink.new) (refused_text number why)) }
    ensures err { OnErr result
        (StoppedAt options line.now number (staged A.exporter R.follower world.old)
        (staged A.exporter R.follower world.new) (K.written sink.old) (K.written sink.new)) }
    ensures cause { BlamesWrite result (K.faults sink.old) (K.faults sink.new) }
{
    let from = world.trace().len();
    match do_line(alloc, world, line) {
        Ok(()) => write_trace(alloc, world, options, from, sink),
        Err(Stop::Refused(why)) => refuse(alloc, number, why, sink),
        Err(Stop::Halted(halt)) => finish(alloc, world, options, from, halt, sink),
        Err(Stop::Write) => Err(Stop::Write),
        Err(Stop::NoMemory) => Err(Stop::NoMemory),
    }
}

/// Does each line of the text, and writes what they add to the trace. The last line counts where `ended` says so.
fn play_lines<A: Application, R: Follower, K: Sink>(
    alloc: Global,
    world: &mut Stage<A, R>,
    options: TraceOptions,
    text: &[u8],
    ended: bool,
    sink: &mut K,
) -> Result<(), Stop>
    requires stage { IsStage A.is_app R.is_follower A.is_kit A.is_spare world.old }
    requires begins { IsPlaying (first_playing QUOTA_MOST) (staged A.exporter R.follower world.old) }
    requires silent { trace_of world.old ≡ [] }
    ensures ok { OnOk result (Played options (lines_read ended text.now) (K.written sink.old) (K.written sink.new)) }
    ensures halted { IfHalted result
        (λ why. PlayedHalted options why (lines_read ended text.now) (K.written sink.old) (K.written sink.new)) }
    ensures refused { IfRefused result
        (λ why. PlayedRefused options (lines_read ended text.now) (K.written sink.old) (K.written sink.new)) }
    ensures err { OnErr result
        (PlayedPart options (lines_read ended text.now) (K.written sink.old) (K.written sink.new)) }
    ensures cause { BlamesWrite result (K.faults sink.old) (K.faults sink.new) }
{
    let mut rest = text;
    let mut number = 0u64;
    while let Some((line, after)) = next_line(rest, ended) {
        number += 1;
        if let Err(stop) = play_line(alloc, world, options, number, line, sink) {
            return Err(stop);
        }
        rest = after;
    }
    Ok(())
}

/// Does each line of the text in a world over these kits and spares, and writes the trace. There are as many as a
/// script can use.
pub(crate) fn play<A: Application, R: Follower, K: Sink>(
    alloc: Global,
    options: TraceOptions,
    text: &[u8],
    ended: bool,
    sink: &mut K,
    kits: Vec<A::Kit>,
    spares: Vec<A::Spare>,
) -> Result<(), Stop>
    requires kits { All A.is_kit kits.items }
    requires spares { All A.is_spare spares.items }
    requires kit_count { length kits.items ≡ APP_COUNT }
    requires spare_count { length spares.items ≡ spare_count }
    ensures ok { OnOk result (Played options (lines_read ended text.now) (K.written sink.old) (K.written sink.new)) }
    ensures halted { IfHalted result
        (λ why. PlayedHalted options why (lines_read ended text.now) (K.written sink.old) (K.written sink.new)) }
    ensures refused { IfRefused result
        (λ why. PlayedRefused options (lines_read ended text.now) (K.written sink.old) (K.written sink.new)) }
    ensures err { OnErr result
        (PlayedPart options (lines_read ended text.now) (K.written sink.old) (K.written sink.new)) }
    ensures cause { BlamesWrite result (K.faults sink.old) (K.faults sink.new) }
{
    let made: Result<Stage<A, R>, _> = Stage::new(alloc, kits, spares);
    match made {
        Ok(mut world) => play_lines(alloc, &mut world, options, text, ended, sink),
        Err(_) => Err(Stop::NoMemory),
    }
}
