//! What is heard on a link and said there: lines of authentication, and the messages of an end.

ghost use Rattle.std.specs.Prelude.{◌≡◌, ◌<◌, ◌≤◌, ◌+◌, ◌^◌, ◌++◌, ℕ, List, [], None, length, IfErr, OnOk};
ghost use Rattle.atspi_auth.specs.Talk.{after, behind, fault_in, told};
ghost use Rattle.atspi_live_conversation.specs.Left.{LeavesOff};
ghost use Rattle.atspi_live_conversation.specs.Speech.{line_bytes};
ghost use Rattle.atspi_live_conversation.specs.Talking.{AttendsAll, Converses, IsAtEase};
ghost use Rattle.atspi_live_conversation.specs.inner.Talking.{BreaksOff, HearsNot, IsOwn};
ghost use Rattle.atspi_live_conversation.specs.Talking.{IsUttered, MaySpeak};
ghost use Rattle.atspi_live_conversation.specs.inner.Talking.{TellsNot};

use crate::attending::attend;
use crate::conversation::Conversation;
use crate::speaking::say;
use crate::{BusEnd, Ending};
use atspi_auth::AuthFault;
use atspi_base::NoMemory;
use atspi_protocol::ends::EndFault;

impl Conversation {
    /// Hears a piece of what the peer sends: lines of authentication, and behind them bytes of messages.
    fn hear(&mut self, piece: &[u8]) -> Result<(), Ending>
        requires { self.old.heard + length piece.now < 2 ^ 64 }
        ensures client { OnOk result (self.new.client ≡ after self.old.client piece.now) }
        ensures feeder { OnOk result (self.new.feeder ≡ self.old.feeder ++ behind self.old.client piece.now) }
        ensures heard { OnOk result (self.new.heard ≡ self.old.heard + length (behind self.old.client piece.now)) }
        ensures few { OnOk result (length (behind self.old.client piece.now) ≤ length piece.now) }
        ensures unsent { OnOk result (self.new.unsent ≡ self.old.unsent) }
        ensures no_fault { OnOk result (fault_in (told self.old.client piece.now).stage ≡ None) }
        ensures err { IfErr result (λ ending. HearsNot ending self.old.client piece.now) }
    {
        let taken = match self.client.feed(piece) {
            Ok(taken) => taken,
            Err(AuthFault::NoMemory) => return Err(Ending::NoMemory),
            Err(_) => return Err(Ending::NotAuthenticated),
        };
        if self.feeder.feed(&piece[taken..]).is_err() {
            return Err(Ending::NoMemory);
        }
        self.heard += (piece.len() - taken) as u64;
        Ok(())
    }

    /// The end takes each whole message that is held.
    fn tell<E: BusEnd>(&mut self, end: &mut E) -> Result<(), Ending>
        requires { MaySpeak E.Stands end.old }
        ensures ok { OnOk result
            ((aside : List ℕ) → AttendsAll (E.Stands aside) None self.old.feeder self.new.feeder end.old end.new) }
        ensures err { IfErr result
            (λ ending. (aside : List ℕ) → TellsNot (E.Stands aside) E.IsSpent ending self.old end.old end.new) }
        ensures client { self.new.client ≡ self.old.client }
        ensures unsent { self.new.unsent ≡ self.old.unsent }
        ensures heard { self.new.heard ≡ self.old.heard }
    {
        match attend(&mut self.feeder, end) {
            Ok(None) => Ok(()),
            Ok(Some(fault)) => {
                let start = self.heard.saturating_sub(self.feeder.len() as u64);
                Err(Ending::Malformed(start, fault))
            }
            Err(EndFault::Spent) => Err(Ending::Spent),
            Err(EndFault::NoMemory) => Err(Ending::NoMemory),
        }
    }

    /// The lines of authentication that are to be said now wait to be given.
    fn say_lines(&mut self) -> Result<(), NoMemory>
        ensures unsent { OnOk result (self.new.unsent ≡ self.old.unsent ++ line_bytes self.old.client.unsent) }
        ensures none { OnOk result (self.new.client.unsent ≡ []) }
        ensures stage { self.new.client.stage ≡ self.old.client.stage }
        ensures line { self.new.client.line ≡ self.old.client.line }
        ensures feeder { self.new.feeder ≡ self.old.feeder }
        ensures heard { self.new.heard ≡ self.old.heard }
    {
        'lines: while let Some(line) = self.client.out() {
            match self.unsent.push(line.bytes()) {
                Ok(()) => {}
                Err(fault) => return Err(fault),
            }
        }
        Ok(())
    }

    /// Hears a piece, and the end takes each message that is then whole.
    pub(crate) fn heed<E: BusEnd>(&mut self, piece: &[u8], end: &mut E) -> Result<(), Ending>
        requires room { self.old.heard + length piece.now < 2 ^ 64 }
        requires may { MaySpeak E.Stands end.old }
        ensures ok { OnOk result ((aside t g : List ℕ) → Converses (E.Stands aside) t g self.old end.old
            → IsAtEase (E.Stands aside) (t ++ piece.now) g self.new end.new) }
        ensures may { OnOk result (MaySpeak E.Stands end.new) }
        ensures few { OnOk result (self.new.heard ≤ self.old.heard + length piece.now) }
        ensures err { IfErr result (λ ending. (aside t g : List ℕ) → Converses (E.Stands aside) t g self.old end.old
            → BreaksOff (E.Stands aside) E.IsSpent ending (t ++ piece.now)) }
        ensures left { IfErr result (λ ending. (aside t g : List ℕ) → IsAtEase (E.Stands aside) t g self.old end.old
            → LeavesOff (E.Stands aside) E.IsSpent ending (t ++ piece.now) end.new) }
        ensures own { IfErr result IsOwn }
    {
        if let Err(ending) = self.hear(piece) {
            return Err(ending);
        }
        self.tell(end)
    }

    /// What is to be said now waits to be given: lines, and once these are over messages of the end, until enough bytes
    /// wait.
    pub(crate) fn utter<E: BusEnd>(&mut self, end: &mut E) -> Result<(), NoMemory>
        requires { MaySpeak E.Stands end.old }
        ensures ok { OnOk result
            ((aside t g : List ℕ) → IsAtEase (E.Stands aside) t g self.old end.old
            → IsAtEase (E.Stands aside) t g self.new end.new) }
        ensures uttered { OnOk result (IsUttered E.queued self.new end.new) }
        ensures may { OnOk result (MaySpeak E.Stands end.new) }
        ensures heard { OnOk result (self.new.heard ≡ self.old.heard) }
    {
        if let Err(fault) = self.say_lines() {
            return Err(fault);
        }
        if !self.client.ready() {
            return Ok(());
        }
        say(end, &mut self.unsent)
    }
}
