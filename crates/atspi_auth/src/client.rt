//! The client's end.

ghost use Rattle.std.specs.Prelude.{◌≡◌, ◌≢◌, ◌≤◌, ◌++◌, ◌↔◌, [], Err, None, drop, length, IfErr, IfOk, IsNone, IsTrue};
ghost use Rattle.std.specs.Prelude.{OnOk, option_to_list};
ghost use Rattle.atspi_auth.specs.Talk.{Continues, HandsOut, Refuses, Stands, after, behind, client_start, fault_in};
ghost use Rattle.atspi_auth.specs.Talk.{told};
ghost use Rattle.atspi_auth.specs.declared.stage.Stage.TheVariants.{Over};

use crate::reply::Waiting;
use crate::stage::Stage;
use crate::talk::Talk;
use crate::{AuthFault, AuthLine};
use std::alloc::Global;
use std::marker::Model;

/// A client's end of the conversation. Its first line to send is `Hail`; it is fed what the server answers, in pieces
/// of any length.
#[derive(Drop)]
pub struct Client {
    talk: Talk,
    hailed: bool,
}

impl Model for Client {
    ghost use Rattle.atspi_auth.specs.Talk.{Standing, after_hail};

    ghost Value = { Standing };

    ghost view = { λ c. after_hail c.hailed c.talk };
}

impl Client {
    /// A client before the first byte, with its `Hail` to send.
    pub fn new(alloc: Global) -> Client
        ensures start { result ≡ client_start }
        ensures whole { Stands client_start [] [] result }
    {
        Client {
            talk: Talk::new(alloc, Stage::Waits(Waiting::ForChallenge)),
            hailed: false,
        }
    }

    /// Hears a piece of what the server sends, and answers how many of its bytes belong to the conversation: all of
    /// them, unless the server's `OK` ends in the piece or came before. `Rejected` where a line is not the awaited
    /// `DATA` or `OK` with 32 hex digits, `TooLong` where 16,384 bytes of a line came without its CR LF among them; the
    /// fault stays. After `NoMemory` the client is as before.
    pub fn feed(&mut self, piece: &[u8]) -> Result<usize, AuthFault>
        ensures ok { OnOk result (self.new ≡ after self.old piece.now) }
        ensures no_fault { OnOk result (fault_in (told self.old piece.now).stage ≡ None) }
        ensures taken { IfOk result (λ n. n ≤ length piece.now) }
        ensures behind { IfOk result (λ n. drop n piece.now ≡ behind self.old piece.now) }
        ensures fault { IfErr result (λ e. Refuses e self.old self.new (told self.old piece.now)) }

        // However the bytes were cut, lines and fault are those of all bytes together.
        ensures whole { result ≢ Err AuthFault.NoMemory → Continues client_start self.old self.new piece.now }
    {
        self.talk.feed(piece)
    }

    /// The next line to send, oldest first.
    pub fn out(&mut self) -> Option<AuthLine>
        ensures line { self.old.unsent ≡ option_to_list result ++ self.new.unsent }
        ensures none { IsNone result ↔ (self.old.unsent ≡ []) }
        ensures stage { self.new.stage ≡ self.old.stage }
        ensures rest { self.new.line ≡ self.old.line }
        ensures whole { HandsOut client_start self.old self.new (option_to_list result) }
    {
        if !self.hailed {
            self.hailed = true;
            return Some(AuthLine::Hail);
        }
        self.talk.out()
    }

    /// Whether the lines are over, so that messages follow the `Begin`.
    pub fn ready(&self) -> bool
        ensures { IsTrue result ↔ (self.now.stage ≡ Over) }
    {
        self.talk.ready()
    }
}
