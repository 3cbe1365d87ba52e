//! What the words of a command line ask for.

ghost use Rattle.std.specs.Prelude.{◌≡◌, ◌↔◌, ◌<◌, ◌^◌, ℕ, List, IsTrue, MatchOption, codes, length, map, string_bytes};
ghost use Rattle.atspi_base.specs.Text.{HasNoZero};
ghost use Rattle.atspi_run_desktop.specs.Words.{IsAddress, IsLauncher, IsPath};

use atspi_base::read_str;

/// How many bytes a path has at the most.
pub const PATH_LIMIT: usize = 107;

/// How many bytes an address has at the most.
pub const ADDRESS_LIMIT: usize = 65_536;

/// Where the session bus is, and the address that the launcher tells.
#[derive(Clone, Copy)]
pub struct Launch<'a> {
    pub path: &'a str,
    pub address: &'a str,
}

/// Whether none of the bytes is zero.
fn has_no_zero(text: &str) -> bool
    requires { length text.now < 2 ^ 32 }
    ensures { IsTrue result ↔ HasNoZero text.now }
{
    match read_str(text.as_bytes()) {
        Ok(_) => true,
        Err(_) => false,
    }
}

/// Whether a socket can be at this path.
fn is_path(path: &str) -> bool
    ensures { IsTrue result ↔ IsPath path.now }
{
    !path.is_empty() && path.len() <= PATH_LIMIT && has_no_zero(path)
}

/// Whether it can be told as an address.
fn is_address(address: &str) -> bool
    ensures { IsTrue result ↔ IsAddress address.now }
{
    !address.is_empty() && address.len() <= ADDRESS_LIMIT && has_no_zero(address)
}

/// What three words ask for.
fn asked<'a>(name: &str, path: &'a str, address: &'a str) -> Option<Launch<'a>>
    ensures { MatchOption result
        ((name.now ≡ codes "launcher") × IsPath path.now × IsAddress address.now → ⊥)
        (λ launch. (name.now ≡ codes "launcher") × (launch.path.now ≡ path.now) × (launch.address.now ≡ address.now)
        × IsPath path.now × IsAddress address.now) }
{
    if name == "launcher" && is_path(path) && is_address(address) {
        return Some(Launch { path, address });
    }
    None
}

/// What the words ask for, where they are those of the launcher.
pub fn launch_in(words: &[String]) -> Option<Launch<'_>>
    ensures { MatchOption result
        ((path address : List ℕ) → IsLauncher (map string_bytes words.now) path address → ⊥)
        (λ launch. IsLauncher (map string_bytes words.now) launch.path.now launch.address.now) }
{
    match words {
        [name, path, address] => asked(name.as_str(), path.as_str(), address.as_str()),
        _ => None,
    }
}
