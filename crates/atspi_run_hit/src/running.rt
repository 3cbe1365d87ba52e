//! An input is read, its lines are done one after another, and what each tells is written; over any whole tree.

ghost use Rattle.std.specs.Prelude.{◌≡◌, ◌≤◌, [], OnOk, OnErr, IsErr, length};
ghost use Rattle.std.specs.Io.KnownBytes.{Appends};
ghost use Rattle.atspi_base.specs.Outside.{AppendsPart};
ghost use Rattle.atspi_run_input.specs.Causes.{Causes};
ghost use Rattle.atspi_run_input.specs.Lines.{lines_read};
ghost use Rattle.atspi_run_input.specs.declared.input.TheConstants.{INPUT_LIMIT};
ghost use Rattle.atspi_run_hit.specs.Names.{refused_text};
ghost use Rattle.atspi_run_hit.specs.Run.{HitDone, Wrote, WrotePart, WroteRefused};
ghost use Rattle.atspi_run_hit.specs.inner.Seen.{DoesLine, HasCalled, IsSession, scene_of};
ghost use Rattle.atspi_run_hit.specs.inner.Writes.{BlamesWrite, DidLine, IfRefused, SaysRefused, StoppedAt};
ghost use Rattle.atspi_run_hit.specs.inner.Writes.{stop_status};

use crate::naming::{Refused, Stop, Undone, undone_of_line};
use crate::reading::line_of;
use crate::session::Session;
use crate::telling::put_refused;
use crate::whole::Whole;
use atspi_base::{Bytes, Sink, Source, write_all};
use atspi_run_input::{next_line, read_all};
use std::alloc::Global;

/// Writes a text.
fn write<K: Sink>(sink: &mut K, text: &Bytes) -> Result<(), Stop>
    ensures ok { OnOk result (Appends (K.written sink.old) (K.written sink.new) text.now) }
    ensures err { OnErr result (AppendsPart (K.written sink.old) (K.written sink.new) text.now) }
    ensures cause { BlamesWrite result (K.faults sink.old) (K.faults sink.new) }
    ensures not_refused { IfRefused result (λ why. ⊥) }
{
    match write_all(sink, text.as_slice()) {
        Ok(()) => Ok(()),
        Err(_) => Err(Stop::Write),
    }
}

/// Reads a line and does it; what it tells is put into what was empty.
fn do_line<T: Whole>(
    alloc: Global,
    session: &mut Session<T>,
    bytes: &[u8],
    out: &mut Bytes,
) -> Result<(), Undone>
    requires session { IsSession T.is_whole T.is_kit session.old }
    requires few { HasCalled (scene_of T.tree_of session.old) 4294967294 }
    requires empty { out.old ≡ [] }
    ensures session { OnOk result (IsSession T.is_whole T.is_kit session.new) }
    ensures line { DoesLine result (scene_of T.tree_of session.old) bytes.now (scene_of T.tree_of session.new) out.new }
{
    match line_of(alloc, bytes) {
        Ok(line) => session.does(alloc, &line, out),
        Err(fault) => Err(undone_of_line(fault)),
    }
}

/// Writes that a line is refused. Lines are counted from 1.
fn write_refused<K: Sink>(
    alloc: Global,
    number: u64,
    why: Refused,
    sink: &mut K,
) -> Result<(), Stop>
    ensures ok { OnOk result (Appends (K.written sink.old) (K.written sink.new) (refused_text number why)) }
    ensures err { OnErr result (AppendsPart (K.written sink.old) (K.written sink.new) (refused_text number why)) }
    ensures cause { BlamesWrite result (K.faults sink.old) (K.faults sink.new) }
    ensures not_refused { IfRefused result (λ why. ⊥) }
{
    let mut text = Bytes::new(alloc);
    let Ok(()) = put_refused(number, why, &mut text) else {
        return Err(Stop::NoMemory);
    };
    write(sink, &text)
}

/// Writes that a line is refused, and answers that.
fn refuse<K: Sink>(alloc: Global, number: u64, why: Refused, sink: &mut K) -> Result<(), Stop>
    ensures stops { IsErr result }
    ensures refused { IfRefused result
        (λ said. (said ≡ why) × Appends (K.written sink.old) (K.written sink.new) (refused_text number why)) }
    ensures err { OnErr result (AppendsPart (K.written sink.old) (K.written sink.new) (refused_text number why)) }
    ensures cause { BlamesWrite result (K.faults sink.old) (K.faults sink.new) }
{
    match write_refused(alloc, number, why, sink) {
        Ok(()) => Err(Stop::Refused(why)),
        Err(stop) => Err(stop),
    }
}

/// Does a line and writes what it tells, or that it is refused. Lines are counted from 1.
fn play_line<T: Whole, K: Sink>(
    alloc: Global,
    session: &mut Session<T>,
    number: u64,
    line: &[u8],
    sink: &mut K,
) -> Result<(), Stop>
    requires session { IsSession T.is_whole T.is_kit session.old }
    requires few { HasCalled (scene_of T.tree_of session.old) 4294967294 }
    ensures session { OnOk result (IsSession T.is_whole T.is_kit session.new) }
    ensures ok { OnOk result
        (DidLine (scene_of T.tree_of session.old) line.now (scene_of T.tree_of session.new) (K.written sink.old)
        (K.written sink.new)) }
    ensures refused { IfRefused result
        (λ why. SaysRefused (scene_of T.tree_of session.old) line.now number why (K.written sink.old)
        (K.written sink.new)) }
    ensures err { OnErr result
        (StoppedAt (scene_of T.tree_of session.old) line.now number (K.written sink.old) (K.written sink.new)) }
    ensures cause { BlamesWrite result (K.faults sink.old) (K.faults sink.new) }
{
    let mut out = Bytes::new(alloc);
    match do_line(alloc, session, line, &mut out) {
        Ok(()) => write(sink, &out),
        Err(Undone::Refused(why)) => refuse(alloc, number, why, sink),
        Err(Undone::NoMemory) => Err(Stop::NoMemory),
    }
}

/// Does each line of the text, and writes what they tell. The last line counts where `ended` says so.
fn play<T: Whole, K: Sink>(
    alloc: Global,
    kit: T::Kit,
    text: &[u8],
    ended: bool,
    sink: &mut K,
) -> Result<(), Stop>
    requires kit { T.is_kit kit }
    requires short { length text.now ≤ INPUT_LIMIT }
    ensures ok { OnOk result (Wrote (lines_read ended text.now) (K.written sink.old) (K.written sink.new)) }
    ensures refused { IfRefused result
        (λ why. WroteRefused (lines_read ended text.now) (K.written sink.old) (K.written sink.new)) }
    ensures err { OnErr result (WrotePart (lines_read ended text.now) (K.written sink.old) (K.written sink.new)) }
    ensures cause { BlamesWrite result (K.faults sink.old) (K.faults sink.new) }
{
    let mut session: Session<T> = Session::new(kit);
    let mut rest = text;
    let mut number = 0u64;
    while let Some((line, after)) = next_line(rest, ended) {
        number += 1;
        if let Err(stop) = play_line(alloc, &mut session, number, line, sink) {
            return Err(stop);
        }
        rest = after;
    }
    Ok(())
}

/// The status of an input whose lines were not all done.
fn stop_status(stop: Stop) -> u8
    ensures { result ≡ stop_status stop }
{
    match stop {
        Stop::Refused(_) => 1,
        Stop::Write => 4,
        Stop::NoMemory => 5,
    }
}

/// Reads an input, does its lines over this kit, and writes what they tell; the status is that of `hit`.
pub(crate) fn hit_over<T: Whole, S: Source, K: Sink>(
    alloc: Global,
    source: &mut S,
    sink: &mut K,
    kit: T::Kit,
) -> u8
    requires { T.is_kit kit }
    ensures done { HitDone INPUT_LIMIT result (S.left source.old) (S.left source.new) (K.written sink.old)
        (K.written sink.new) }
    ensures causes { Causes result (S.faults source.old) (S.faults source.new) (K.faults sink.old) (K.faults sink.new) }
{
    let mut text = Vec::new(alloc);
    let Ok(end) = read_all(alloc, source, &mut text) else {
        return 5;
    };
    match play::<T, K>(alloc, kit, &text, end.is_whole(), sink) {
        Ok(()) => end.status(),
        Err(stop) => stop_status(stop),
    }
}
