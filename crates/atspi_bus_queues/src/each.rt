//! Bytes for several connections at once: they go to each of them or to none.

ghost use Rattle.std.specs.Prelude.{◌≡◌, ◌<◌, ◌^◌, length, IfOk, MatchBool, OnErr};
ghost use Rattle.atspi_match.specs.routing.Queues.{Waiting};
ghost use Rattle.atspi_bus_queues.specs.Each.{HaveRoom, WentToEach, queued_each};

use crate::Queues;
use atspi_base::NoMemory;

impl Queues {
    /// Takes bytes back that went to some connections, from the last to the first.
    fn take_back_each(&mut self, conns: &[u32], bytes: &[u8])
        requires small { length bytes.now < 2 ^ 32 }
        requires went { (before : Waiting) × WentToEach self.old.quota before self.old.waiting bytes.now conns.now }
        ensures { (before : Waiting) → WentToEach self.old.quota before self.old.waiting bytes.now conns.now
            → self.new ≡ record self.old { waiting = before } }
    {
        for i in 0..conns.len() {
            let conn = conns[conns.len() - 1 - i];
            self.take_back(conn, bytes.len() as u32);
        }
    }

    /// Puts bytes behind those that wait for each of some connections, where each has room for them when its turn
    /// comes, and answers whether they have. Where one has none, and after want of memory, all is as before.
    pub fn push_each(&mut self, conns: &[u32], bytes: &[u8]) -> Result<bool, NoMemory>
        requires { length bytes.now < 2 ^ 32 }
        ensures ok { IfOk result (λ went. MatchBool went
            (HaveRoom self.old.quota self.old.waiting bytes.now conns.now
            × (self.new
            ≡ record self.old { waiting = queued_each self.old.quota self.old.waiting bytes.now conns.now }))
            ((HaveRoom self.old.quota self.old.waiting bytes.now conns.now → ⊥) × (self.new ≡ self.old))) }
        ensures due { self.new.waiting.due ≡ self.old.waiting.due }
        ensures err { OnErr result (self.new ≡ self.old) }
    {
        for (i, conn) in conns.iter().enumerate() {
            match self.push_if_room(*conn, bytes) {
                Ok(true) => {}
                Ok(false) => {
                    self.take_back_each(&conns[..i], bytes);
                    return Ok(false);
                }
                Err(refused) => {
                    self.take_back_each(&conns[..i], bytes);
                    return Err(refused);
                }
            }
        }
        Ok(true)
    }
}
