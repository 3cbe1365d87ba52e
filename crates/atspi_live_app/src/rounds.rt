//! Rounds of an application: a line of its input is done, and then it takes what came.

ghost use Rattle.std.specs.Prelude.{◌≡◌, ◌<◌, ◌≤◌, ◌+◌, ◌-◌, ◌^◌, ℕ, List, [], length, IfErr, MatchResult, OnOk};
ghost use Rattle.atspi_live_host.specs.Calls.{IsOpen};
ghost use Rattle.atspi_message.specs.Envelope.{Envelope};
ghost use Rattle.atspi_live_conversation.specs.Moved.{Tells};
ghost use Rattle.atspi_live_conversation.specs.Rounds.{IsRound, Makes};
ghost use Rattle.atspi_live_conversation.specs.Talking.{Going, MaySpeak, heard_in};
ghost use Rattle.atspi_live_app.specs.Lines.{lines_of};
ghost use Rattle.atspi_live_app.specs.Live.{IsMarked, IsStopped};
ghost use Rattle.atspi_live_app.specs.inner.Live.{aside_of};
ghost use Rattle.atspi_live_app.specs.Overs.{IsOver, OverBlames};
ghost use Rattle.atspi_live_app.specs.Pace.{BreaksOver, EndsTurn, GoesOn, Heard};
ghost use Rattle.atspi_live_app.specs.Rounds.{RunsPaced};
ghost use Rattle.atspi_live_app.specs.Standing.{IsAfter, IsEmpty};
ghost use Rattle.atspi_live_app.specs.Turns.{InTurn};

use crate::live_app::{LiveApp, Stop};
use crate::over::Over;
use atspi_app::Application;
use atspi_live_conversation::{BusEnd, Conversation, Ending, round};
use atspi_live_host::Host;
use std::alloc::Global;

/// How many bytes are taken in one read at the most.
const PIECE: usize = 4096;

/// The next line is done, where the last one has taken all its rounds.
fn do_due<A: Application>(end: &mut LiveApp<A>, takes: &mut u32) -> Result<(), Stop>
    requires { MaySpeak ⟦<LiveApp<A> as BusEnd>⟧.Stands end.old }
    ensures ok { OnOk result
        ((text marks : List ℕ) (place : ℕ) (took said : List Envelope)
        → ⟦<LiveApp<A> as BusEnd>⟧.Stands (aside_of place marks text) end.old took said
        → (marks' : List ℕ) × GoesOn text place marks (length took) takes.old takes.new end.new.input.at marks'
        × ⟦<LiveApp<A> as BusEnd>⟧.Stands (aside_of end.new.input.at marks' text) end.new took said) }
    ensures err { IfErr result
        (λ stop. (text marks : List ℕ) (place : ℕ) (took said : List Envelope)
        → ⟦<LiveApp<A> as BusEnd>⟧.Stands (aside_of place marks text) end.old took said
        → IsStopped (IsMarked marks) stop (lines_of text) took) }
    ensures due { IfErr result (λ stop. takes.old ≡ 0) }
{
    if *takes > 0 {
        return Ok(());
    }
    match end.do_next() {
        Ok(rounds) => {
            *takes = rounds;
            Ok(())
        }
        Err(stop) => Err(stop),
    }
}

/// One round, before which a line is done where one is due.
fn turn<A: Application, H: Host>(
    host: &mut H,
    link: u32,
    piece: &mut [u8],
    conversation: &mut Conversation,
    end: &mut LiveApp<A>,
    takes: &mut u32,
) -> Result<(), Over>
    requires open { IsOpen link (H.links host.old) }
    requires some { 0 < length piece.old }
    requires room { heard_in conversation.old + length piece.old < 2 ^ 64 }
    requires may { MaySpeak ⟦<LiveApp<A> as BusEnd>⟧.Stands end.old }
    ensures ok { OnOk result
        ((text marks : List ℕ) (place n : ℕ)
        (going
        : Going (⟦<LiveApp<A> as BusEnd>⟧.Stands (aside_of place marks text)) link (H.calls host.old) n
        conversation.old end.old)
        → (due place' count : ℕ) × (marks' : List ℕ) × GoesOn text place marks count takes.old due place' marks'
        × Heard link (H.calls host.old) count × (takes.new ≡ due - 1)
        × Going (⟦<LiveApp<A> as BusEnd>⟧.Stands (aside_of place' marks' text)) link (H.calls host.new) (n + 1)
        conversation.new end.new
        × Makes (H.calls host.old) (H.calls host.new)
        (IsRound (IsAfter (IsMarked marks') (lines_of text)) IsEmpty link (length piece.old) going.t going.g)) }
    ensures err { IfErr result
        (λ over. (text marks : List ℕ) (place n rounds : ℕ)
        (going
        : Going (⟦<LiveApp<A> as BusEnd>⟧.Stands (aside_of place marks text)) link (H.calls host.old) n
        conversation.old end.old)
        → (marks' : List ℕ) × IsOver (IsMarked marks') (lines_of text) link over rounds (H.calls host.new)
        × EndsTurn text place marks takes.old link (H.calls host.old) over marks'
        × Makes (H.calls host.old) (H.calls host.new)
        (BreaksOver (IsMarked marks') (lines_of text) link (length piece.old) over going.t going.g)) }
    ensures may { OnOk result (MaySpeak ⟦<LiveApp<A> as BusEnd>⟧.Stands end.new) }
    ensures few { OnOk result (heard_in conversation.new ≤ heard_in conversation.old + length piece.old) }
    ensures links { H.links host.new ≡ H.links host.old }
    ensures cause { MatchResult result (λ _. H.link_faults host.new ≡ H.link_faults host.old)
        (λ over. OverBlames over (H.link_faults host.old) (H.link_faults host.new)) }
    ensures other { H.faults host.new ≡ H.faults host.old }
{
    if let Err(stop) = do_due(end, takes) {
        return Err(Over::Stopped(stop));
    }
    match round(host, link, piece, conversation, end) {
        Ok(()) => {
            *takes = takes.saturating_sub(1);
            Ok(())
        }
        Err(ending) => Err(Over::Ended(ending)),
    }
}

/// Lets an application export its tree on a link that was given and not used, for so many rounds, and do the lines of
/// its input.
pub(crate) fn export<A: Application, H: Host>(
    alloc: Global,
    host: &mut H,
    link: u32,
    end: &mut LiveApp<A>,
    rounds: u32,
) -> Over
    requires open { IsOpen link (H.links host.old) }
    requires fresh { Tells link (H.calls host.old) [] [] [] }
    requires begins { ⟦<LiveApp<A> as BusEnd>⟧.Stands (aside_of 0 [] end.old.input.text.items) end.old [] [] }
    ensures over { IsOver (InTurn link (H.calls host.new)) (lines_of end.old.input.text.items) link result rounds
        (H.calls host.new) }
    ensures paced { Makes (H.calls host.old) (H.calls host.new)
        (RunsPaced (lines_of end.old.input.text.items) link result rounds) }
    ensures links { H.links host.new ≡ H.links host.old }
    ensures cause { OverBlames result (H.link_faults host.old) (H.link_faults host.new) }
    ensures other { H.faults host.new ≡ H.faults host.old }
{
    let mut conversation = Conversation::new(alloc);
    let mut piece = [0u8; PIECE];
    let mut takes = 0;
    let mut done = 0;
    'rounds: while done < rounds {
        match turn(host, link, &mut piece, &mut conversation, end, &mut takes) {
            Ok(()) => {}
            Err(over) => return over,
        }
        done += 1;
    }
    Over::Ended(Ending::RoundsDone)
}
