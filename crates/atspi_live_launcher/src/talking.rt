//! The rounds of a launcher, whose address is known.

ghost use Rattle.std.specs.Prelude.{◌≡◌, []};
ghost use Rattle.atspi_live_host.specs.Calls.{IsOpen};
ghost use Rattle.atspi_live_conversation.specs.Moved.{Tells};
ghost use Rattle.atspi_live_conversation.specs.Rounds.{IsRun, Makes};
ghost use Rattle.atspi_live_conversation.specs.Speech.{Ends, Speaks};
ghost use Rattle.atspi_live_conversation.specs.Talking.{Blames};
ghost use Rattle.atspi_live_launcher.specs.inner.Talks.{HasNothing, IsSpentOf, StandsOf, address_of};

use crate::live_launcher::LiveLauncher;
use atspi_live_conversation::{Conversation, Ending, round};
use atspi_live_host::Host;
use std::alloc::Global;

/// How many bytes are taken in one read at the most.
const PIECE: usize = 4096;

/// Lets a launcher that has just started converse on a link that was given and not used, for so many rounds, as
/// `converse` does; what it says is told by the address that it was started with.
pub(crate) fn talk<H: Host>(
    alloc: Global,
    host: &mut H,
    link: u32,
    end: &mut LiveLauncher,
    rounds: u32,
) -> Ending
    requires open { IsOpen link (H.links host.old) }
    requires fresh { Tells link (H.calls host.old) [] [] [] }
    requires begins { StandsOf (address_of end.old) end.old [] [] }
    ensures speech { Speaks (StandsOf (address_of end.old)) link (H.calls host.new) }
    ensures ends { Ends (StandsOf (address_of end.old)) IsSpentOf link result rounds (H.calls host.new) }
    ensures rounds { Makes (H.calls host.old) (H.calls host.new)
        (IsRun (λ _. StandsOf (address_of end.old)) HasNothing link 4096 result rounds) }
    ensures links { H.links host.new ≡ H.links host.old }
    ensures cause { Blames result (H.link_faults host.old) (H.link_faults host.new) }
    ensures other { H.faults host.new ≡ H.faults host.old }
{
    let mut conversation = Conversation::new(alloc);
    let mut piece = [0u8; PIECE];
    let mut done = 0;
    'rounds: while done < rounds {
        match round(host, link, &mut piece, &mut conversation, end) {
            Ok(()) => {}
            Err(ending) => return ending,
        }
        done += 1;
    }
    Ending::RoundsDone
}
