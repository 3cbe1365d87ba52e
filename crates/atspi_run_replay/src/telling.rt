//! What happened in a world is written.

ghost use Rattle.std.specs.Prelude.{◌≡◌, [], ◌∷◌, ◌++◌, ℕ, List, IsErr, OnOk, OnErr, Some, cond, slice_get, true};
ghost use Rattle.std.specs.Prelude.{false};
ghost use Rattle.std.specs.Option.{option_copied};
ghost use Rattle.std.specs.Io.KnownBytes.{Appends};
ghost use Rattle.atspi_base.specs.Outside.{AppendsPart};
ghost use Rattle.atspi_trace_texts.specs.TraceText.{is_brief as keeps};
ghost use Rattle.atspi_run_replay.specs.Names.{refused_text};
ghost use Rattle.atspi_run_replay.specs.inner.Play.{BlamesWrite, IfHalted, IfRefused};
ghost use Rattle.atspi_run_replay.specs.Told.{bytes_text, told_text};
ghost use Rattle.atspi_run_replay.specs.inner.Told.{told_at, told_from, told_if};
ghost use Rattle.atspi_world_parties.specs.Wires.{wire_bytes};
ghost use Rattle.atspi_world.specs.Stage.{posts_of, trace_of};

use crate::naming::{Halt, Refused, Stop, refused_name};
use atspi_base::{Bytes, NoMemory, Sink, write_all};
use atspi_trace_events::Event;
use atspi_trace_texts::{TraceOptions, is_brief, write_event, write_wire};
use atspi_world::Stage;
use atspi_world_ends::{Application, Follower};
use std::alloc::Global;

/// Text is written once so much of it is there, in bytes.
const PIECE: usize = 65_536;

/// Whether an event is told.
fn is_told(options: TraceOptions, event: &Event) -> bool
    ensures { result ≡ cond options.brief (keeps event.now) true }
{
    !options.brief || is_brief(event)
}

/// Appends bytes as a line, where there are some.
fn put_line(alloc: Global, bytes: &Bytes, text: &mut Bytes) -> Result<(), NoMemory>
    ensures { OnOk result (text.new ≡ text.old ++ bytes_text bytes.now) }
{
    if bytes.is_empty() {
        return Ok(());
    }
    write_wire(alloc, bytes.as_slice(), text)
}

/// Appends the line with the bytes of the message that an event of a world's trace tells, where it tells one.
fn put_bytes<A: Application, R: Follower>(
    alloc: Global,
    world: &Stage<A, R>,
    event: usize,
    text: &mut Bytes,
) -> Result<(), NoMemory>
    ensures { OnOk result
        (text.new
        ≡ text.old
        ++ bytes_text
        (wire_bytes (posts_of world.now) (trace_of world.now) event
        (slice_get (trace_of world.now) event))) }
{
    let mut bytes = Bytes::new(alloc);
    let Ok(()) = world.wire(event, &mut bytes) else {
        return Err(NoMemory);
    };
    put_line(alloc, &bytes, text)
}

/// Appends the text of an event, which has this place in a world's trace, and the bytes of its message where they are
/// asked for.
fn put_event<A: Application, R: Follower>(
    alloc: Global,
    world: &Stage<A, R>,
    options: TraceOptions,
    place: usize,
    event: &Event,
    text: &mut Bytes,
) -> Result<(), NoMemory>
    requires { slice_get (trace_of world.now) place ≡ Some event.now }
    ensures { OnOk result
        (text.new
        ≡ text.old ++ told_text options (told_at (posts_of world.now) (trace_of world.now) place event.now ∷ [])) }
{
    if !is_told(options, event) {
        return Ok(());
    }
    write_event(event, text)?;
    if !options.wire {
        return Ok(());
    }
    put_bytes(alloc, world, place, text)
}

/// The event at a place of a trace.
fn event_at(trace: &[Event], place: usize) -> Option<&Event>
    ensures { option_copied result ≡ slice_get trace.now place }
{
    trace.get(place)
}

/// Appends what is told of the event with this place in a world's trace.
fn put_entry<A: Application, R: Follower>(
    alloc: Global,
    world: &Stage<A, R>,
    options: TraceOptions,
    place: usize,
    text: &mut Bytes,
) -> Result<(), NoMemory>
    ensures { OnOk result
        (text.new
        ≡ text.old
        ++ told_text options
        (told_if (posts_of world.now) (trace_of world.now) place (slice_get (trace_of world.now) place))) }
{
    match event_at(world.trace(), place) {
        Some(event) => put_event(alloc, world, options, place, event, text),
        None => Ok(()),
    }
}

/// Writes a text.
fn write<K: Sink>(sink: &mut K, text: &Bytes) -> Result<(), Stop>
    ensures ok { OnOk result (Appends (K.written sink.old) (K.written sink.new) text.now) }
    ensures err { OnErr result (AppendsPart (K.written sink.old) (K.written sink.new) text.now) }
    ensures cause { BlamesWrite result (K.faults sink.old) (K.faults sink.new) }
    ensures not_refused { IfRefused result (λ why. ⊥) }
    ensures not_halted { IfHalted result (λ why. ⊥) }
{
    match write_all(sink, text.as_slice()) {
        Ok(()) => Ok(()),
        Err(_) => Err(Stop::Write),
    }
}

/// Whether there is so much of a text that it is written.
fn is_piece(text: &Bytes) -> bool {
    text.len() >= PIECE
}

/// Writes a text once there is much of it, and then none of it is left.
fn write_piece<K: Sink>(sink: &mut K, text: &mut Bytes) -> Result<(), Stop>
    ensures ok { OnOk result
        ((wrote : List ℕ) × Appends (K.written sink.old) (K.written sink.new) wrote × (wrote ++ text.new ≡ text.old)) }
    ensures err { OnErr result (AppendsPart (K.written sink.old) (K.written sink.new) text.old) }
    ensures cause { BlamesWrite result (K.faults sink.old) (K.faults sink.new) }
    ensures not_refused { IfRefused result (λ why. ⊥) }
    ensures not_halted { IfHalted result (λ why. ⊥) }
{
    if !is_piece(text) {
        return Ok(());
    }
    if let Err(stop) = write(sink, text) {
        return Err(stop);
    }
    text.truncate(0);
    Ok(())
}

/// Writes what is told of a world's trace from a place on.
pub(crate) fn write_trace<A: Application, R: Follower, K: Sink>(
    alloc: Global,
    world: &Stage<A, R>,
    options: TraceOptions,
    from: usize,
    sink: &mut K,
) -> Result<(), Stop>
    ensures ok { OnOk result
        (Appends (K.written sink.old) (K.written sink.new)
        (told_text options (told_from (posts_of world.now) (trace_of world.now) from))) }
    ensures err { OnErr result
        (AppendsPart (K.written sink.old) (K.written sink.new)
        (told_text options (told_from (posts_of world.now) (trace_of world.now) from))) }
    ensures cause { BlamesWrite result (K.faults sink.old) (K.faults sink.new) }
    ensures not_refused { IfRefused result (λ why. ⊥) }
    ensures not_halted { IfHalted result (λ why. ⊥) }
{
    let mut text = Bytes::new(alloc);
    for place in from..world.trace().len() {
        let Ok(()) = put_entry(alloc, world, options, place, &mut text) else {
            return Err(Stop::NoMemory);
        };
        if let Err(stop) = write_piece(sink, &mut text) {
            return Err(stop);
        }
    }
    write(sink, &text)
}

/// Appends the line that tells of a refusal.
fn put_refused(alloc: Global, number: u64, why: Refused, out: &mut Bytes) -> Result<(), NoMemory>
    ensures { OnOk result (out.new ≡ out.old ++ refused_text number why) }
{
    let digits = number.to_string(alloc)?;
    out.extend(b"refused ")?;
    out.extend(digits.as_bytes())?;
    out.extend(b" ")?;
    out.extend(refused_name(why).as_bytes())?;
    out.extend(b"\n")
}

/// Writes that a line is refused. Lines are counted from 1.
fn write_refused<K: Sink>(
    alloc: Global,
    number: u64,
    why: Refused,
    sink: &mut K,
) -> Result<(), Stop>
    ensures ok { OnOk result (Appends (K.written sink.old) (K.written sink.new) (refused_text number why)) }
    ensures err { OnErr result (AppendsPart (K.written sink.old) (K.written sink.new) (refused_text number why)) }
    ensures cause { BlamesWrite result (K.faults sink.old) (K.faults sink.new) }
    ensures not_refused { IfRefused result (λ why. ⊥) }
    ensures not_halted { IfHalted result (λ why. ⊥) }
{
    let mut text = Bytes::new(alloc);
    let Ok(()) = put_refused(alloc, number, why, &mut text) else {
        return Err(Stop::NoMemory);
    };
    write(sink, &text)
}

/// Writes that a line is refused, and answers that.
pub(crate) fn refuse<K: Sink>(
    alloc: Global,
    number: u64,
    why: Refused,
    sink: &mut K,
) -> Result<(), Stop>
    ensures stops { IsErr result }
    ensures refused { IfRefused result
        (λ said. (said ≡ why) × Appends (K.written sink.old) (K.written sink.new) (refused_text number why)) }
    ensures err { OnErr result (AppendsPart (K.written sink.old) (K.written sink.new) (refused_text number why)) }
    ensures cause { BlamesWrite result (K.faults sink.old) (K.faults sink.new) }
    ensures not_halted { IfHalted result (λ why. ⊥) }
{
    match write_refused(alloc, number, why, sink) {
        Ok(()) => Err(Stop::Refused(why)),
        Err(stop) => Err(stop),
    }
}

/// Writes what is told of a world's trace from a place on, behind which the world came to its end, and answers that.
pub(crate) fn finish<A: Application, R: Follower, K: Sink>(
    alloc: Global,
    world: &Stage<A, R>,
    options: TraceOptions,
    from: usize,
    halt: Halt,
    sink: &mut K,
) -> Result<(), Stop>
    ensures stops { IsErr result }
    ensures halted { IfHalted result
        (λ said. (said ≡ halt)
        × Appends (K.written sink.old) (K.written sink.new)
        (told_text options (told_from (posts_of world.now) (trace_of world.now) from))) }
    ensures err { OnErr result
        (AppendsPart (K.written sink.old) (K.written sink.new)
        (told_text options (told_from (posts_of world.now) (trace_of world.now) from))) }
    ensures cause { BlamesWrite result (K.faults sink.old) (K.faults sink.new) }
    ensures not_refused { IfRefused result (λ why. ⊥) }
{
    match write_trace(alloc, world, options, from, sink) {
        Ok(()) => Err(Stop::Halted(halt)),
        Err(stop) => Err(stop),
    }
}
