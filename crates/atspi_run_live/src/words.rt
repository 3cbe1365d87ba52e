//! The words of a live command: its name, the path of a socket, and for how many rounds.

ghost use Rattle.std.specs.Prelude.{◌≡◌, ◌↔◌, ◌<◌, ◌^◌, ℕ, List, IsTrue, MatchOption, length, map, string_bytes};
ghost use Rattle.atspi_base.specs.Text.{HasNoZero};
ghost use Rattle.atspi_run_live.specs.Words.{AreRounds, IsLive, IsPath, name_of, rest_of};
ghost use Rattle.atspi_run_live.specs.declared.words.Service.{Service};
ghost use Rattle.atspi_run_live.specs.declared.words.TheConstants.{FOR_GOOD};

use atspi_base::read_str;
use atspi_script_lines::read_number;

/// So many rounds mean: for as long as it runs. It is the largest count that words may ask for.
pub const FOR_GOOD: u32 = 1_000_000_000;

/// How many bytes a path has at the most.
pub const PATH_LIMIT: usize = 107;

/// So long the host may rest where nothing is ready, in milliseconds.
pub const REST: u64 = 500;

/// So long for an application, so that `wait N` keeps a meaning.
pub const APP_REST: u64 = 1;

/// What is run on a socket.
#[derive(Clone, Copy, Debug, PartialEq, Eq)]
pub enum Service {
    Bus,
    Registry,
    App,
    Read,
}

/// A live command.
#[derive(Clone, Copy)]
pub struct Live<'a> {
    pub service: Service,
    /// Where the socket is.
    pub path: &'a str,
    pub rounds: u32,
}

/// What a word names.
fn service_named(word: &str) -> Option<Service>
    ensures { MatchOption result ((service : Service) → word.now ≡ name_of service → ⊥)
        (λ service. word.now ≡ name_of service) }
{
    match word {
        "bus" => Some(Service::Bus),
        "registry" => Some(Service::Registry),
        "app" => Some(Service::App),
        "read" => Some(Service::Read),
        _ => None,
    }
}

/// Whether none of the bytes is zero.
fn has_no_zero(text: &str) -> bool
    requires { length text.now < 2 ^ 32 }
    ensures { IsTrue result ↔ HasNoZero text.now }
{
    match read_str(text.as_bytes()) {
        Ok(_) => true,
        Err(_) => false,
    }
}

/// Whether a socket can be at this path.
fn is_path(path: &str) -> bool
    ensures { IsTrue result ↔ IsPath path.now }
{
    !path.is_empty() && path.len() <= PATH_LIMIT && has_no_zero(path)
}

/// The count of rounds that a word spells, where it is within its limits.
fn rounds_in(word: &str) -> Option<u32>
    ensures { MatchOption result ((rounds : ℕ) → AreRounds word.now rounds → ⊥) (λ rounds. AreRounds word.now rounds) }
{
    match read_number(word.as_bytes()) {
        Some(rounds) if 0 < rounds && rounds <= FOR_GOOD => Some(rounds),
        _ => None,
    }
}

/// What three words ask for.
fn asked<'a>(name: &str, path: &'a str, rounds: &str) -> Option<Live<'a>>
    ensures { MatchOption result
        ((service : Service) (count : ℕ) → name.now ≡ name_of service → IsPath path.now → AreRounds rounds.now count
        → ⊥)
        (λ live. (name.now ≡ name_of live.service) × (live.path.now ≡ path.now) × IsPath path.now
        × AreRounds rounds.now live.rounds) }
{
    let Some(service) = service_named(name) else {
        return None;
    };
    let Some(rounds) = rounds_in(rounds) else {
        return None;
    };
    if is_path(path) {
        return Some(Live {
            service,
            path,
            rounds,
        });
    }
    None
}

/// What the words ask for, where they are those of a live command.
pub fn live_in(words: &[String]) -> Option<Live<'_>>
    ensures { MatchOption result
        ((service : Service) (path : List ℕ) (rounds : ℕ) → IsLive (map string_bytes words.now) service path rounds → ⊥)
        (λ live. IsLive (map string_bytes words.now) live.service live.path.now live.rounds) }
{
    match words {
        [name, path, rounds] => asked(name.as_str(), path.as_str(), rounds.as_str()),
        _ => None,
    }
}

/// How long the host of a service may rest where a whole round found nothing ready.
fn rest_of(service: Service) -> u64
    ensures { result ≡ rest_of service }
{
    match service {
        Service::App => APP_REST,
        Service::Bus | Service::Registry | Service::Read => REST,
    }
}

/// How long the host may rest where a whole round found nothing ready, in milliseconds. None where the words ask for no
/// live command, or for one of so many rounds that each is to come at once.
pub fn longest_rest(words: &[String]) -> Option<u64>
    ensures { MatchOption result
        ((service : Service) (path : List ℕ) → IsLive (map string_bytes words.now) service path FOR_GOOD → ⊥)
        (λ rest. (service : Service) × (path : List ℕ) × IsLive (map string_bytes words.now) service path FOR_GOOD
        × (rest ≡ rest_of service)) }
{
    match live_in(words) {
        Some(live) if live.rounds == FOR_GOOD => Some(rest_of(live.service)),
        _ => None,
    }
}
