//! The top call: what the words of a command line do, and with which status they end.

ghost use Rattle.std.specs.Prelude.{◌≡◌, ℕ, List, [], chars, map, string_bytes};
ghost use Rattle.atspi_live_conversation.specs.Reports.{Begins};
ghost use Rattle.atspi_run_check.specs.Check.{Checked};
ghost use Rattle.atspi_run_check.specs.Complete.{EndsAsDueOf, NoneFailed};
ghost use Rattle.atspi_run_hit.specs.Run.{HitDone};
ghost use Rattle.atspi_run_input.specs.declared.input.TheConstants.{INPUT_LIMIT};
ghost use Rattle.atspi_run_live.specs.Complete.{EndsWell, PeerDoes};
ghost use Rattle.atspi_run_live.specs.Serves.{ServesApp, ServesBus, ServesReader, ServesRegistry};
ghost use Rattle.atspi_run_live.specs.Words.{IsLive};
ghost use Rattle.atspi_run_live.specs.declared.words.Service.{Service};
ghost use Rattle.atspi_run_live.specs.declared.words.Service.TheVariants.{App, Bus, Read, Registry};
ghost use Rattle.atspi_trace_texts.specs.declared.options.TraceOptions.{TraceOptions};
ghost use Rattle.atspi_run_replay.specs.Causes.{Causes};
ghost use Rattle.atspi_run_replay.specs.Complete.{EndsFullPast, EndsWellWithin, Unfailed};
ghost use Rattle.atspi_run_replay.specs.Made.{Made};
ghost use Rattle.atspi_run_replay.specs.Run.{Replayed};
ghost use Rattle.atspi_run.specs.Complete.{MakesWell};
ghost use Rattle.atspi_run.specs.Words.{Asks, IsCheck, IsCommand, IsHit, IsLiveCommand, IsMake, IsReplay, Tells};
ghost use Rattle.atspi_run.specs.Words.{usage};

use crate::words::{asked_task, is_alone, tell};
use crate::world::do_task;
use atspi_base::{Sink, Source};
use atspi_live_host::Host;
use atspi_run_check::{CHECK_LIMIT, check};
use atspi_run_hit::hit;
use atspi_run_live::{live_in, serve};
use atspi_run_replay::SCRIPT_LIMIT;
use std::alloc::Global;

/// Does what the words say, and answers the status. `replay [--brief] [--wire]` reads a script and writes the text of
/// its trace; `make N SEED` makes such a script and tells what came of it; `check` reads a stream of messages and
/// writes a line for each, and one for the first fault; `hit` reads edits and rectangles, and tells of points, cells
/// and relations; `bus PATH ROUNDS` serves a bus on the host's socket at the path, and `registry`, `app` and `read` are
/// one end there; `--help` and `--version` alone, and `--help` behind a command, write a text; all other words give
/// status 2 and a line on how the program is used.
///
/// Status 0: the input was read to its end, and all its lines or messages were done; of an end on a socket: its peer
/// ended. 1: a line is refused, and those before it were done. 2: the words name no command. 3: the source failed,
/// behind whole lines or messages that were done. 4: the sink failed. 5: no memory is left. 6: a message of the input,
/// or of the peer, is malformed, or the input ends inside one. 7: a call of the host failed. 8: the input is longer
/// than the limit, and the whole lines or messages inside it were done; or all rounds were done. 9: the registry was
/// dropped at its quota. 10: the peer did not authenticate. 13: a message would pass number 4,294,967,295.
pub fn run<S: Source, K: Sink, H: Host>(
    alloc: Global,
    words: &[String],
    source: &mut S,
    sink: &mut K,
    host: &mut H,
) -> u8
    requires begins { Begins (H.calls host.old) }
    requires links { H.links host.old ≡ [] }
    ensures replayed { (options : TraceOptions) → IsReplay (map string_bytes words.now) options
        → Replayed options SCRIPT_LIMIT result (S.left source.old) (S.left source.new) (K.written sink.old)
        (K.written sink.new) }
    ensures made { (count seed : ℕ) → IsMake (map string_bytes words.now) count seed
        → Made count seed result (K.written sink.old) (K.written sink.new) }
    ensures checked { IsCheck (map string_bytes words.now)
        → Checked CHECK_LIMIT result (S.left source.old) (S.left source.new) (K.written sink.old) (K.written sink.new) }
    ensures hit { IsHit (map string_bytes words.now)
        → HitDone INPUT_LIMIT result (S.left source.old) (S.left source.new) (K.written sink.old) (K.written sink.new) }
    ensures bus { (path : List ℕ) (rounds : ℕ) → IsLive (map string_bytes words.now) Bus path rounds
        → ServesBus (chars path) rounds result (H.calls host.old) (H.calls host.new) (H.faults host.old)
        (H.faults host.new) × (K.written sink.new ≡ K.written sink.old) }
    ensures registry { (path : List ℕ) (rounds : ℕ) → IsLive (map string_bytes words.now) Registry path rounds
        → ServesRegistry (chars path) rounds result (H.links host.new) (H.calls host.new) (H.faults host.old)
        (H.faults host.new) (H.link_faults host.old) (H.link_faults host.new) (K.written sink.old)
        (K.written sink.new) (K.faults sink.old) (K.faults sink.new) }
    ensures app { (path : List ℕ) (rounds : ℕ) → IsLive (map string_bytes words.now) App path rounds
        → ServesApp (chars path) rounds result (S.left source.old) (S.left source.new) (S.faults source.old)
        (S.faults source.new) (H.links host.new) (H.calls host.old) (H.calls host.new) (H.faults host.old)
        (H.faults host.new) (H.link_faults host.old) (H.link_faults host.new) (K.written sink.old)
        (K.written sink.new) (K.faults sink.old) (K.faults sink.new) }
    ensures read { (path : List ℕ) (rounds : ℕ) → IsLive (map string_bytes words.now) Read path rounds
        → ServesReader (chars path) rounds result (H.links host.new) (H.calls host.new) (H.faults host.old)
        (H.faults host.new) (H.link_faults host.old) (H.link_faults host.new) (K.written sink.old)
        (K.written sink.new) (K.faults sink.old) (K.faults sink.new) }
    ensures uncalled { (IsLiveCommand (map string_bytes words.now) → ⊥) → host.new ≡ host.old }
    ensures told { (text : List ℕ) → Asks (map string_bytes words.now) text
        → Tells 0 text result (K.written sink.old) (K.written sink.new) }
    ensures usage { (IsCommand (map string_bytes words.now) → ⊥)
        → Tells 2 usage result (K.written sink.old) (K.written sink.new) }
    ensures words { result ≡ 2 → IsCommand (map string_bytes words.now) → ⊥ }
    ensures complete { (options : TraceOptions) → IsReplay (map string_bytes words.now) options
        → Unfailed (S.faults source.old) (S.faults source.new) → Unfailed (K.faults sink.old) (K.faults sink.new)
        → EndsWellWithin SCRIPT_LIMIT result (S.left source.old) }
    ensures full { (options : TraceOptions) → IsReplay (map string_bytes words.now) options
        → Unfailed (S.faults source.old) (S.faults source.new) → Unfailed (K.faults sink.old) (K.faults sink.new)
        → EndsFullPast SCRIPT_LIMIT result (S.left source.old) }
    ensures check_complete { IsCheck (map string_bytes words.now)
        → NoneFailed (S.faults source.old) (S.faults source.new) → NoneFailed (K.faults sink.old) (K.faults sink.new)
        → EndsAsDueOf CHECK_LIMIT result (S.left source.old) }
    ensures make_complete { (count seed : ℕ) → IsMake (map string_bytes words.now) count seed
        → NoneFailed (K.faults sink.old) (K.faults sink.new) → MakesWell count seed result }
    ensures bus_complete { (path : List ℕ) (rounds : ℕ) → IsLive (map string_bytes words.now) Bus path rounds
        → NoneFailed (H.faults host.old) (H.faults host.new) → EndsWell 8 result }
    ensures end_complete { (service : Service) (path : List ℕ) (rounds : ℕ)
        → IsLive (map string_bytes words.now) service path rounds → (service ≡ Bus → ⊥) → (service ≡ App → ⊥)
        → NoneFailed (K.faults sink.old) (K.faults sink.new) → NoneFailed (H.faults host.old) (H.faults host.new)
        → NoneFailed (H.link_faults host.old) (H.link_faults host.new)
        → PeerDoes (H.links host.new) rounds (H.calls host.new) → EndsWell 0 result }
    ensures causes { Causes result (S.faults source.old) (S.faults source.new) (K.faults sink.old) (K.faults sink.new) }
{
    if let Some(task) = asked_task(words) {
        return do_task(alloc, task, source, sink);
    }
    if is_alone(words, "check") {
        return check(alloc, source, sink);
    }
    if is_alone(words, "hit") {
        return hit(alloc, source, sink);
    }
    if let Some(live) = live_in(words) {
        return serve(alloc, live, source, sink, host);
    }
    tell(words, sink)
}
