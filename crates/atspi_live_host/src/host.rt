//! The outside of a live end: Unix sockets that never block.

ghost use Rattle.std.specs.Prelude.{◌≡◌, ◌≢◌, ℕ, ◌<◌, ◌≤◌, List, Option, length};
ghost use Rattle.atspi_live_host.specs.Calls.{Adds, Counts, Opens, IsUnused, Moves, IsOpen, front, without};
ghost use Rattle.atspi_live_host.specs.declared.call.Did.{Did};
ghost use Rattle.atspi_live_host.specs.declared.call.Call.{Call};

use crate::Did;
use atspi_base::Text;

/// Unix sockets that never block. A link is named by a number, which is never given again.
///
/// A call fails only where its own count of faults rose, and leaves the other count as it is. What passes on the links
/// is what the list of calls says, where the host tells that list.
pub trait Host {
    /// The calls made so far, with their answers, where the host tells them.
    ghost calls: { Self → Option (List Call) };

    /// The links in use, in the order in which they were given.
    ghost links: { Self → List ℕ };

    /// How often a listen, an accept or a connect has failed. The count stops at the last value of 64 bits.
    ghost faults: { Self → ℕ };

    /// How often a read or a write has failed. The count stops at the last value of 64 bits.
    ghost link_faults: { Self → ℕ };

    /// From now on links are made at the path.
    fn listen(&mut self, path: &Text) -> Did
        ensures calls { Adds (calls self.old) (calls self.new) (Call.Listen path.now result) }
        ensures links { links self.new ≡ links self.old }
        ensures cause { Counts (faults self.old) (faults self.new) result }
        ensures other { link_faults self.new ≡ link_faults self.old };

    /// The next link, if one waits.
    fn accept(&mut self) -> Did
        ensures calls { Adds (calls self.old) (calls self.new) (Call.Accept result) }
        ensures links { Opens (links self.old) (links self.new) result }
        ensures unused { IsUnused (calls self.old) result }
        ensures cause { Counts (faults self.old) (faults self.new) result }
        ensures other { link_faults self.new ≡ link_faults self.old };

    /// A link to who listens at the path.
    fn connect(&mut self, path: &Text) -> Did
        ensures calls { Adds (calls self.old) (calls self.new) (Call.Connect path.now result) }
        ensures links { Opens (links self.old) (links self.new) result }
        ensures unused { IsUnused (calls self.old) result }
        ensures ready { result ≢ Did.NotYet }
        ensures cause { Counts (faults self.old) (faults self.new) result }
        ensures other { link_faults self.new ≡ link_faults self.old };

    /// Moves bytes of the peer to the front of `into`, and answers how many.
    fn read(&mut self, link: u32, into: &mut [u8]) -> Did
        requires open { IsOpen link (links self.old) }
        requires room { 0 < length into.old }
        ensures calls { Adds (calls self.old) (calls self.new) (Call.Read link (front result into.new) result) }
        ensures links { links self.new ≡ links self.old }
        ensures within { Moves (length into.old) result }
        ensures cause { Counts (link_faults self.old) (link_faults self.new) result }
        ensures other { faults self.new ≡ faults self.old };

    /// Gives the first of the bytes to the peer, and answers how many.
    fn write(&mut self, link: u32, bytes: &[u8]) -> Did
        requires open { IsOpen link (links self.old) }
        requires some { 0 < length bytes.now }
        ensures calls { Adds (calls self.old) (calls self.new) (Call.Write link bytes.now result) }
        ensures links { links self.new ≡ links self.old }
        ensures within { Moves (length bytes.now) result }
        ensures no_end { result ≢ Did.End }
        ensures cause { Counts (link_faults self.old) (link_faults self.new) result }
        ensures other { faults self.new ≡ faults self.old };

    /// The link is used no more.
    fn close(&mut self, link: u32)
        requires open { IsOpen link (links self.old) }
        ensures calls { Adds (calls self.old) (calls self.new) (Call.Close link) }
        ensures links { links self.new ≡ without link (links self.old) }
        ensures same { faults self.new ≡ faults self.old }
        ensures link_same { link_faults self.new ≡ link_faults self.old };
}
