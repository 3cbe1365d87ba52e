//! The server's end.

ghost use Rattle.std.specs.Prelude.{◌≡◌, ◌≢◌, ◌≤◌, ◌++◌, ◌↔◌, [], Err, None, drop, length, IfErr, IfOk, IsNone, IsTrue};
ghost use Rattle.std.specs.Prelude.{OnOk, option_to_list};
ghost use Rattle.atspi_auth.specs.Talk.{Continues, HandsOut, Refuses, Stands, after, behind, fault_in, server_start};
ghost use Rattle.atspi_auth.specs.Talk.{told};
ghost use Rattle.atspi_auth.specs.declared.stage.Stage.TheVariants.{Over};

use crate::stage::Stage;
use crate::talk::Talk;
use crate::{AuthFault, AuthLine};
use std::alloc::Global;
use std::marker::Model;

/// A server's end of the conversation. It is fed what the client sends, in pieces of any length, and hands out the
/// lines to answer. Any decimal uid is let in: who may connect is the matter of the socket's folder.
#[derive(Drop)]
pub struct Server {
    talk: Talk,
}

impl Model for Server {
    ghost use Rattle.atspi_auth.specs.Talk.{Standing};

    ghost Value = { Standing };

    ghost view = { λ s. s.talk };
}

impl Server {
    /// A server before the first byte.
    pub fn new(alloc: Global) -> Server
        ensures start { result ≡ server_start }
        ensures whole { Stands server_start [] [] result }
    {
        Server {
            talk: Talk::new(alloc, Stage::Zero),
        }
    }

    /// Hears a piece of what the client sends, and answers how many of its bytes belong to the conversation: all of
    /// them, unless `BEGIN` ends in the piece or came before. `NoZero` where the first byte is not 0, `TooLong` where
    /// 16,384 bytes of a line came without its CR LF among them, `Early` where `BEGIN` comes before anything was
    /// granted; the fault stays. After `NoMemory` the server is as before.
    pub fn feed(&mut self, piece: &[u8]) -> Result<usize, AuthFault>
        ensures ok { OnOk result (self.new ≡ after self.old piece.now) }
        ensures no_fault { OnOk result (fault_in (told self.old piece.now).stage ≡ None) }
        ensures taken { IfOk result (λ n. n ≤ length piece.now) }
        ensures behind { IfOk result (λ n. drop n piece.now ≡ behind self.old piece.now) }
        ensures fault { IfErr result (λ e. Refuses e self.old self.new (told self.old piece.now)) }

        // However the bytes were cut, lines and fault are those of all bytes together.
        ensures whole { result ≢ Err AuthFault.NoMemory → Continues server_start self.old self.new piece.now }
    {
        self.talk.feed(piece)
    }

    /// The next line to send, oldest first.
    pub fn out(&mut self) -> Option<AuthLine>
        ensures line { self.old.unsent ≡ option_to_list result ++ self.new.unsent }
        ensures none { IsNone result ↔ (self.old.unsent ≡ []) }
        ensures stage { self.new.stage ≡ self.old.stage }
        ensures rest { self.new.line ≡ self.old.line }
        ensures whole { HandsOut server_start self.old self.new (option_to_list result) }
    {
        self.talk.out()
    }

    /// Whether the lines are over, so that messages follow.
    pub fn ready(&self) -> bool
        ensures { IsTrue result ↔ (self.now.stage ≡ Over) }
    {
        self.talk.ready()
    }
}
