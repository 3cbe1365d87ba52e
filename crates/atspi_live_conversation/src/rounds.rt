//! Rounds over a host: one read, and then one write where bytes wait.

ghost use Rattle.std.specs.Prelude.{◌≡◌, ◌<◌, ◌≤◌, ◌+◌, ◌^◌, ℕ, List, [], Err, length, IfErr, MatchResult, OnOk};
ghost use Rattle.atspi_base.specs.Outside.{Rose};
ghost use Rattle.atspi_live_host.specs.Calls.{IsOpen};
ghost use Rattle.atspi_live_host.specs.declared.call.Did.{Did};
ghost use Rattle.atspi_live_conversation.specs.Left.{IsLeft};
ghost use Rattle.atspi_live_conversation.specs.Moved.{Grows, Tells};
ghost use Rattle.atspi_live_conversation.specs.Rounds.{Breaks, IsRead, IsRound, IsRun, Makes};
ghost use Rattle.atspi_live_conversation.specs.Speech.{Ends, Speaks};
ghost use Rattle.atspi_live_conversation.specs.declared.ending.Ending.{Ending};
ghost use Rattle.atspi_live_conversation.specs.Talking.{Blames, Going, HasNone, IsBroken, IsEnded};
ghost use Rattle.atspi_live_conversation.specs.inner.Talking.{GivesPart};
ghost use Rattle.atspi_live_conversation.specs.Talking.{MakesNext, MaySpeak, heard_in};
ghost use Rattle.atspi_live_conversation.specs.inner.Talking.{PutsFront, PutsIfAny};

use crate::conversation::Conversation;
use crate::unsent::Unsent;
use crate::{BusEnd, Ending};
use atspi_base::Failed;
use atspi_live_host::{Did, Host};
use std::alloc::Global;

/// How many bytes are taken in one read at the most.
const PIECE: usize = 4096;

/// One read, and the end takes what is then whole.
fn take_in<H: Host, E: BusEnd>(
    host: &mut H,
    link: u32,
    piece: &mut [u8],
    conversation: &mut Conversation,
    end: &mut E,
) -> Result<(), Ending>
    requires open { IsOpen link (H.links host.old) }
    requires some { 0 < length piece.old }
    requires room { heard_in conversation.old + length piece.old < 2 ^ 64 }
    requires may { MaySpeak E.Stands end.old }
    ensures ok { OnOk result
        ((aside : List ℕ) (n : ℕ) → Going (E.Stands aside) link (H.calls host.old) n conversation.old end.old
        → Going (E.Stands aside) link (H.calls host.new) (n + 1) conversation.new end.new) }
    ensures err { IfErr result
        (λ ending. (aside : List ℕ) (n rounds : ℕ)
        → Going (E.Stands aside) link (H.calls host.old) n conversation.old end.old
        → IsEnded (E.Stands aside) E.IsSpent link ending rounds (H.calls host.new)) }
    ensures may { OnOk result (MaySpeak E.Stands end.new) }
    ensures few { OnOk result (heard_in conversation.new ≤ heard_in conversation.old + length piece.old) }
    ensures made { MatchResult result
        (λ _. Makes (H.calls host.old) (H.calls host.new) (IsRead link (length piece.old)))
        (λ ending. (aside t g : List ℕ)
        → Makes (H.calls host.old) (H.calls host.new)
        (Breaks (E.Stands aside) (HasNone E.queued) link (length piece.old) ending t g)) }
    ensures grows { Grows link (H.calls host.old) (H.calls host.new) }
    ensures left { IfErr result
        (λ ending. (aside : List ℕ) (n : ℕ) → Going (E.Stands aside) link (H.calls host.old) n conversation.old end.old
        → IsLeft (E.Stands aside) E.IsSpent link ending (H.calls host.new) end.new) }
    ensures still { result ≡ Err Ending.PeerEnded → end.new ≡ end.old }
    ensures broken { IfErr result IsBroken }
    ensures links { H.links host.new ≡ H.links host.old }
    ensures cause { MatchResult result (λ _. H.link_faults host.new ≡ H.link_faults host.old)
        (λ ending. Blames ending (H.link_faults host.old) (H.link_faults host.new)) }
    ensures other { H.faults host.new ≡ H.faults host.old }
{
    match host.read(link, piece) {
        Did::Done(n) => conversation.heed(&piece[..n as usize], end),
        Did::NotYet => Ok(()),
        Did::End => Err(Ending::PeerEnded),
        Did::Failed => Err(Ending::HostFailed),
    }
}

/// One write, where bytes wait.
fn give<H: Host>(host: &mut H, link: u32, unsent: &mut Unsent) -> Result<(), Failed>
    requires { IsOpen link (H.links host.old) }
    ensures made { MatchResult result (λ _. Makes (H.calls host.old) (H.calls host.new) (PutsIfAny link unsent.old))
        (λ _. Makes (H.calls host.old) (H.calls host.new) (PutsFront link unsent.old Did.Failed)) }
    ensures gives { GivesPart link (H.calls host.old) (H.calls host.new) unsent.old unsent.new }
    ensures links { H.links host.new ≡ H.links host.old }
    ensures cause { MatchResult result (λ _. H.link_faults host.new ≡ H.link_faults host.old)
        (λ _. (H.link_faults host.old ≤ H.link_faults host.new)
        × Rose (H.link_faults host.old) (H.link_faults host.new)) }
    ensures other { H.faults host.new ≡ H.faults host.old }
{
    if unsent.len() == 0 {
        return Ok(());
    }
    match host.write(link, unsent.front()) {
        Did::Done(n) => {
            unsent.pop(n as usize);
            Ok(())
        }
        Did::NotYet => Ok(()),
        Did::End | Did::Failed => Err(Failed),
    }
}

/// One round of a conversation: one read of at most as many bytes as the piece has room for, the end takes each message
/// that is then whole, and exactly where not all is given that is due, one write of the next 1 to 4,096 bytes. Where
/// the run is over in it, the end took each message before what ended the run, none where the peer did not
/// authenticate, and what it queued for these stays queued.
pub fn round<H: Host, E: BusEnd>(
    host: &mut H,
    link: u32,
    piece: &mut [u8],
    conversation: &mut Conversation,
    end: &mut E,
) -> Result<(), Ending>
    requires open { IsOpen link (H.links host.old) }
    requires some { 0 < length piece.old }
    requires room { heard_in conversation.old + length piece.old < 2 ^ 64 }
    requires may { MaySpeak E.Stands end.old }
    ensures ok { OnOk result
        ((aside : List ℕ) (n : ℕ) → Going (E.Stands aside) link (H.calls host.old) n conversation.old end.old
        → Going (E.Stands aside) link (H.calls host.new) (n + 1) conversation.new end.new) }
    ensures err { IfErr result
        (λ ending. (aside : List ℕ) (n rounds : ℕ)
        → Going (E.Stands aside) link (H.calls host.old) n conversation.old end.old
        → IsEnded (E.Stands aside) E.IsSpent link ending rounds (H.calls host.new)) }
    ensures may { OnOk result (MaySpeak E.Stands end.new) }
    ensures few { OnOk result (heard_in conversation.new ≤ heard_in conversation.old + length piece.old) }
    ensures made { MatchResult result
        (λ _. (aside : List ℕ)
        → MakesNext (E.Stands aside) link (H.calls host.old) (H.calls host.new) conversation.old end.old
        (IsRound (E.Stands aside) (HasNone E.queued) link (length piece.old)))
        (λ ending. (aside : List ℕ)
        → MakesNext (E.Stands aside) link (H.calls host.old) (H.calls host.new) conversation.old end.old
        (Breaks (E.Stands aside) (HasNone E.queued) link (length piece.old) ending)) }
    ensures grows { Grows link (H.calls host.old) (H.calls host.new) }
    ensures left { IfErr result
        (λ ending. (aside : List ℕ) (n : ℕ) → Going (E.Stands aside) link (H.calls host.old) n conversation.old end.old
        → IsLeft (E.Stands aside) E.IsSpent link ending (H.calls host.new) end.new) }
    ensures still { result ≡ Err Ending.PeerEnded → end.new ≡ end.old }
    ensures broken { IfErr result IsBroken }
    ensures links { H.links host.new ≡ H.links host.old }
    ensures cause { MatchResult result (λ _. H.link_faults host.new ≡ H.link_faults host.old)
        (λ ending. Blames ending (H.link_faults host.old) (H.link_faults host.new)) }
    ensures other { H.faults host.new ≡ H.faults host.old }
{
    if let Err(ending) = take_in(host, link, piece, conversation, end) {
        return Err(ending);
    }
    let Ok(()) = conversation.utter(end) else {
        return Err(Ending::NoMemory);
    };
    match give(host, link, &mut conversation.unsent) {
        Ok(()) => Ok(()),
        Err(Failed) => Err(Ending::HostFailed),
    }
}

/// Lets an end that has just started converse on a link that was given and not used, for so many rounds. It is
/// authenticated as a client first (D-Bus Specification, "Authentication Protocol"). In each round there is one read of
/// at most 4,096 bytes and then, exactly where not all is given that is due for the bytes taken, one write of the next
/// 1 to 4,096 bytes; a message that passes the limits of the wire is left out.
///
/// `RoundsDone` where all rounds were done, `PeerEnded` where a read found the link's end, `HostFailed` where a read or
/// a write failed, `NotAuthenticated`, `Malformed` and `Spent` by the bytes that were taken; each message before the
/// malformed one, and each before the one that the end can't answer any more, was taken.
pub fn converse<H: Host, E: BusEnd>(
    alloc: Global,
    host: &mut H,
    link: u32,
    end: &mut E,
    rounds: u32,
) -> Ending
    requires open { IsOpen link (H.links host.old) }
    requires fresh { Tells link (H.calls host.old) [] [] [] }
    requires begins { E.Stands [] end.old [] [] }
    ensures speech { Speaks (E.Stands []) link (H.calls host.new) }
    ensures ends { Ends (E.Stands []) E.IsSpent link result rounds (H.calls host.new) }
    ensures rounds { Makes (H.calls host.old) (H.calls host.new)
        (IsRun (λ _. E.Stands []) (HasNone E.queued) link 4096 result rounds) }
    ensures links { H.links host.new ≡ H.links host.old }
    ensures cause { Blames result (H.link_faults host.old) (H.link_faults host.new) }
    ensures other { H.faults host.new ≡ H.faults host.old }
{
    let mut conversation = Conversation::new(alloc);
    let mut piece = [0u8; PIECE];
    let mut done = 0;
    'rounds: while done < rounds {
        match round(host, link, &mut piece, &mut conversation, end) {
            Ok(()) => {}
            Err(ending) => return ending,
        }
        done += 1;
    }
    Ending::RoundsDone
}
