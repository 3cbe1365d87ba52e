//! A reader, as a world holds it.

ghost use Rattle.std.specs.Prelude.{◌≡◌, ◌<◌, ◌↔◌, ◌∷◌, [], None, IfOk, IsErrOf, MatchOption, OnOk, OnErr};
ghost use Rattle.std.specs.Option.{option_map};
ghost use Rattle.atspi_message_in_place.specs.View.{envelope_at};
ghost use Rattle.atspi_cache_arena.specs.Sights.{sights};
ghost use Rattle.atspi_protocol.specs.following.ReaderState.{ReaderState, begins};
ghost use Rattle.atspi_protocol.specs.following.Takes.{starts, reader_takes, reader_calls, held_view};
ghost use Rattle.atspi_reader_calls.specs.Deeds.{MayBeAsked};
ghost use Rattle.atspi_world_ends.specs.Done.{done_of};

use atspi_base::NoMemory;
use atspi_base::valid_names::BusName;
use atspi_cache_arena::Rows;
use atspi_message_in_place::MessageRef;
use atspi_protocol::ends::EndFault;
use atspi_protocol::following::ReaderEvent;
use atspi_reader_calls::CallFault;
use atspi_script_lines::Deed;
use std::alloc::Global;

/// A reader. It is seen as `follower` says, and `is_follower` holds of it at any time.
pub trait Follower: Drop {
    ghost is_follower: { Self → Type 0 };

    ghost follower: { Self → ReaderState };

    /// It knows nothing, and has not started.
    fn new(alloc: Global) -> Result<Self, NoMemory>
        ensures is { IfOk result (λ reader. is_follower reader) }
        ensures begins { IfOk result (λ reader. follower reader ≡ begins) };

    /// The first call, Hello, is queued. Spent only where its number would pass 4,294,967,295; after a fault all is as
    /// before.
    fn start(&mut self) -> Result<(), EndFault>
        requires { is_follower self.old }
        ensures is { is_follower self.new }
        ensures ok { OnOk result (follower self.new ≡ starts (follower self.old)) }
        ensures spent { IsErrOf result EndFault.Spent → 4294967296 < (starts (follower self.old)).next }
        ensures err { OnErr result (follower self.new ≡ follower self.old) };

    /// Takes a message. Spent only where the reader's call that it asks for would pass number 4,294,967,295; after a
    /// fault all is as before.
    fn take(&mut self, m: &MessageRef<'_>) -> Result<(), EndFault>
        requires { is_follower self.old }
        ensures is { is_follower self.new }
        ensures ok { OnOk result (follower self.new ≡ reader_takes (follower self.old) (envelope_at m.now)) }
        ensures spent { IsErrOf result EndFault.Spent
            → 4294967296 < (reader_takes (follower self.old) (envelope_at m.now)).next }
        ensures err { OnErr result (follower self.new ≡ follower self.old) };

    /// A user's call of a node of an application that is held is queued. NotHeld exactly where `view` is none; Spent
    /// only where the call would pass number 4,294,967,295; after a fault all is as before.
    fn call(&mut self, app: &BusName, node: u32, what: &Deed) -> Result<(), CallFault>
        requires is { is_follower self.old }
        requires asked { MayBeAsked what.now }
        ensures is { is_follower self.new }
        ensures ok { OnOk result (follower self.new ≡ reader_calls (follower self.old) app.now node what.now) }
        ensures spent { IsErrOf result CallFault.Spent
            → 4294967296 < (reader_calls (follower self.old) app.now node what.now).next }
        ensures not_held { IsErrOf result CallFault.NotHeld ↔ (held_view (follower self.old) app.now ≡ None) }
        ensures err { OnErr result (follower self.new ≡ follower self.old) };

    /// What it did first of all that was not handed out yet. Where all was, all stays as it is.
    fn next(&mut self) -> Option<ReaderEvent>
        requires { is_follower self.old }
        ensures is { is_follower self.new }
        ensures empty { MatchOption result (follower self.new ≡ follower self.old)
            (λ event. follower self.old
            ≡ record (follower self.new) { out = done_of event ∷ (follower self.new).out }) }
        ensures front { MatchOption result ((follower self.old).out ≡ [])
            (λ event. (follower self.old).out ≡ done_of event ∷ (follower self.new).out) }
        ensures rest { follower self.new ≡ record (follower self.old) { out = (follower self.new).out } };

    /// The rows of an application in preorder, none exactly where it is not held. Takes no memory.
    fn view(&self, app: &BusName) -> Option<Rows<'_>>
        requires { is_follower self.now }
        ensures { result ≡ option_map (λ view. sights view) (held_view (follower self.now) app.now) };
}
