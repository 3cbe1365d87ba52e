//! Rounds of a reader: it takes what came, and its lines are written.

ghost use Rattle.std.specs.Prelude.{◌≡◌, ◌<◌, ◌≤◌, ◌+◌, ◌^◌, ℕ, List, [], length, IfErr, MatchResult, OnOk};
ghost use Rattle.atspi_live_host.specs.Calls.{IsOpen};
ghost use Rattle.atspi_live_conversation.specs.Moved.{Tells};
ghost use Rattle.atspi_live_conversation.specs.Rounds.{IsRound, Makes};
ghost use Rattle.atspi_live_conversation.specs.Talking.{Going, MakesNext, MaySpeak, heard_in};
ghost use Rattle.atspi_live_reader.specs.Following.{BlamesSink, BreaksOver, EndsRun, EndsTurn, GoesOn, IsMuted, IsOver};
ghost use Rattle.atspi_live_reader.specs.Following.{IsQuiet, OverBlames, RunsOver, SpeaksOn, Stands};
ghost use Rattle.atspi_live_reader.specs.Spoken.{IsAfter, IsEmpty};

use crate::live_reader::LiveReader;
use crate::over::Over;
use atspi_base::{Sink, write_all};
use atspi_live_conversation::{Conversation, Ending, round};
use atspi_live_host::Host;
use std::alloc::Global;

/// How many bytes are taken in one read at the most.
const PIECE: usize = 4096;

/// Writes the lines that were spoken.
fn speak<K: Sink>(end: &mut LiveReader, sink: &mut K) -> Result<(), Over>
    ensures ok { OnOk result (SpeaksOn end.old end.new (K.written sink.old) (K.written sink.new)) }
    ensures err { IfErr result (λ over. IsMuted over end.old (K.written sink.old) (K.written sink.new)) }
    ensures cause { MatchResult result (λ _. K.faults sink.new ≡ K.faults sink.old)
        (λ over. BlamesSink over (K.faults sink.old) (K.faults sink.new)) }
    ensures later { K.faults sink.old ≤ K.faults sink.new }
{
    if end.starved {
        return Err(Over::Ended(Ending::NoMemory));
    }
    if write_all(sink, end.lines.as_slice()).is_err() {
        return Err(Over::NotWritten);
    }
    end.lines.truncate(0);
    Ok(())
}

/// One round, and then the lines that were spoken are written.
fn turn<K: Sink, H: Host>(
    host: &mut H,
    link: u32,
    piece: &mut [u8],
    conversation: &mut Conversation,
    end: &mut LiveReader,
    sink: &mut K,
) -> Result<(), Over>
    requires open { IsOpen link (H.links host.old) }
    requires some { 0 < length piece.old }
    requires room { heard_in conversation.old + length piece.old < 2 ^ 64 }
    requires may { MaySpeak Stands end.old }
    requires quiet { IsQuiet end.old }
    ensures ok { OnOk result
        (GoesOn link (H.calls host.old) (H.calls host.new) conversation.old conversation.new end.old end.new
        (K.written sink.old) (K.written sink.new)) }
    ensures err { IfErr result
        (λ over. (said : List ℕ) (n rounds : ℕ) → Going (Stands said) link (H.calls host.old) n conversation.old end.old
        → IsOver link over rounds said (H.calls host.new) (K.written sink.old) (K.written sink.new)) }
    ensures made { MatchResult result
        (λ _. (said : List ℕ)
        → MakesNext (Stands said) link (H.calls host.old) (H.calls host.new) conversation.old end.old
        (IsRound IsAfter IsEmpty link (length piece.old)))
        (λ over. (said : List ℕ)
        → MakesNext (Stands said) link (H.calls host.old) (H.calls host.new) conversation.old end.old
        (BreaksOver link (length piece.old) over)) }
    ensures left { IfErr result
        (λ over. (said : List ℕ) (n : ℕ) → Going (Stands said) link (H.calls host.old) n conversation.old end.old
        → EndsTurn link over said (H.calls host.new) (K.written sink.old) (K.written sink.new) end.new) }
    ensures may { OnOk result (MaySpeak Stands end.new) }
    ensures quiet { OnOk result (IsQuiet end.new) }
    ensures few { OnOk result (heard_in conversation.new ≤ heard_in conversation.old + length piece.old) }
    ensures links { H.links host.new ≡ H.links host.old }
    ensures cause { MatchResult result (λ _. H.link_faults host.new ≡ H.link_faults host.old)
        (λ over. OverBlames over (H.link_faults host.old) (H.link_faults host.new)) }
    ensures other { H.faults host.new ≡ H.faults host.old }
    ensures sink { MatchResult result (λ _. K.faults sink.new ≡ K.faults sink.old)
        (λ over. BlamesSink over (K.faults sink.old) (K.faults sink.new)) }
    ensures later { K.faults sink.old ≤ K.faults sink.new }
{
    if let Err(ending) = round(host, link, piece, conversation, end) {
        return Err(Over::Ended(ending));
    }
    speak(end, sink)
}

/// Lets a reader that has just started follow applications on a link that was given and not used, for so many rounds.
pub(crate) fn follow<K: Sink, H: Host>(
    alloc: Global,
    host: &mut H,
    link: u32,
    end: &mut LiveReader,
    sink: &mut K,
    rounds: u32,
) -> Over
    requires open { IsOpen link (H.links host.old) }
    requires fresh { Tells link (H.calls host.old) [] [] [] }
    requires begins { Stands [] end.old [] [] }
    requires quiet { IsQuiet end.old }
    ensures over { IsOver link result rounds [] (H.calls host.new) (K.written sink.old) (K.written sink.new) }
    ensures rounds { Makes (H.calls host.old) (H.calls host.new) (RunsOver link result rounds) }
    ensures left { EndsRun link result (H.calls host.new) (K.written sink.old) (K.written sink.new) end.new }
    ensures links { H.links host.new ≡ H.links host.old }
    ensures cause { OverBlames result (H.link_faults host.old) (H.link_faults host.new) }
    ensures other { H.faults host.new ≡ H.faults host.old }
    ensures sink { BlamesSink result (K.faults sink.old) (K.faults sink.new) }
    ensures later { K.faults sink.old ≤ K.faults sink.new }
{
    let mut conversation = Conversation::new(alloc);
    let mut piece = [0u8; PIECE];
    let mut done = 0;
    'rounds: while done < rounds {
        match turn(host, link, &mut piece, &mut conversation, end, sink) {
            Ok(()) => {}
            Err(over) => return over,
        }
        done += 1;
    }
    Over::Ended(Ending::RoundsDone)
}
