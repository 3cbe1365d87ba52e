//! The top call of the desktop session's program.

ghost use Rattle.std.specs.Prelude.{◌≡◌, ℕ, List, [], MatchResult, chars, map, string_bytes};
ghost use Rattle.atspi_live_conversation.specs.Reports.{Begins};
ghost use Rattle.atspi_run_desktop.specs.Commands.{IsCommand, Launches, Tells, usage};
ghost use Rattle.atspi_run_desktop.specs.Words.{IsLauncher, IsWords};

use crate::words::{Launch, launch_in};
use atspi_base::{Failed, Sink, Text, write_all};
use atspi_live_host::Host;
use atspi_live_launcher::launcher;
use std::alloc::Global;

/// So many rounds mean: for as long as it runs.
pub const FOR_GOOD: u32 = 1_000_000_000;

/// What is written for words that name no command.
const USAGE: &[u8] = b"usage: atspi-desktop launcher SESSION_PATH ADDRESS\n";

/// The launcher with the path and the address of the words, as they are spelled.
fn launch<K: Sink, H: Host>(alloc: Global, asked: Launch<'_>, sink: &mut K, host: &mut H) -> u8
    requires begins { Begins (H.calls host.old) }
    requires links { H.links host.old ≡ [] }
    requires words { IsWords asked.path.now asked.address.now }
    ensures { Launches (chars asked.entry.path.now) (chars asked.entry.address.now) result (H.links host.new)
        (H.calls host.new) (H.faults host.old) (H.faults host.new) (H.link_faults host.old) (H.link_faults host.new)
        (K.written sink.old) (K.written sink.new) (K.faults sink.old) (K.faults sink.new) }
{
    let Ok(path) = Text::of(alloc, asked.path) else {
        return 5;
    };
    let Ok(address) = Text::of(alloc, asked.address) else {
        return 5;
    };
    launcher(alloc, &path, address, FOR_GOOD, sink, host)
}

/// The status that is due where a text was written, else 4.
fn status_of(due: u8, written: Result<(), Failed>) -> u8
    ensures { MatchResult written (λ _. result ≡ due) (λ _. result ≡ 4) }
{
    match written {
        Ok(()) => due,
        Err(_) => 4,
    }
}

/// Does what the words say, and answers the status. `launcher SESSION_PATH ADDRESS` owns the name org.a11y.Bus on the
/// session bus whose socket is at the path, and tells there that the accessibility bus is at the address; all other
/// words give status 2 and a line on how the program is used.
///
/// Status 0: the session bus ended. 2: the words name no command. 4: the sink failed. 5: no memory is left. 6: a
/// message of the session bus is malformed. 7: a call of the host failed. 8: all rounds were done. 10: the session bus
/// did not authenticate. 13: a message would pass number 4,294,967,295.
pub fn run<K: Sink, H: Host>(alloc: Global, words: &[String], sink: &mut K, host: &mut H) -> u8
    requires begins { Begins (H.calls host.old) }
    requires links { H.links host.old ≡ [] }
    ensures launcher { (path address : List ℕ) → IsLauncher (map string_bytes words.now) path address
        → Launches (chars path) (chars address) result (H.links host.new) (H.calls host.new) (H.faults host.old)
        (H.faults host.new) (H.link_faults host.old) (H.link_faults host.new) (K.written sink.old)
        (K.written sink.new) (K.faults sink.old) (K.faults sink.new) }
    ensures uncalled { (IsCommand (map string_bytes words.now) → ⊥) → host.new ≡ host.old }
    ensures usage { (IsCommand (map string_bytes words.now) → ⊥)
        → Tells 2 usage result (K.written sink.old) (K.written sink.new) }
    ensures words { result ≡ 2 → IsCommand (map string_bytes words.now) → ⊥ }
{
    match launch_in(words) {
        Some(asked) => launch(alloc, asked, sink, host),
        None => status_of(2, write_all(sink, USAGE)),
    }
}
