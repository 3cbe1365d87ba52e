//! Connections by their parties.

ghost use Rattle.std.specs.Prelude.{◌≡◌, ◌≤◌, length, position};
ghost use Rattle.std.specs.Option.{option_copied};
ghost use Rattle.atspi_world_links.specs.declared.post.Post.{Post};
ghost use Rattle.atspi_trace.specs.Ends.{same_party};
ghost use Rattle.atspi_world_parties.specs.Places as places;

use atspi_script_lines::Party;
use atspi_world_links::Post;

/// Whether the two are one party.
pub(crate) fn is_party(who: Party, other: Party) -> bool
    ensures { result ≡ same_party who other }
{
    match who {
        Party::Bus => matches!(other, Party::Bus),
        Party::Registry => matches!(other, Party::Registry),
        Party::App(a) => match other {
            Party::App(b) => a == b,
            _ => false,
        },
        Party::Reader(r) => match other {
            Party::Reader(s) => r == s,
            _ => false,
        },
    }
}

/// The connection of a party, none where the party was not started.
pub fn post_of(posts: &[Post], who: Party) -> Option<&Post>
    ensures { option_copied result ≡ places.post_of who posts.now }
{
    posts.iter().find(|post| is_party(post.who, who))
}

/// The place of a party's connection.
fn place_of(posts: &[Post], who: Party) -> Option<usize>
    ensures { result ≡ position (λ (p : Post). same_party p.who who) posts.now }
{
    posts.iter().position(|post| is_party(post.who, who))
}

/// The number of a party's connection, none where the party was not started.
pub fn conn_of(posts: &[Post], who: Party) -> Option<u32>
    ensures { length posts.now ≤ 4294967296 → result ≡ position (λ (p : Post). same_party p.who who) posts.now }
{
    match place_of(posts, who) {
        Some(place) => match u32::try_from(place) {
            Ok(conn) => Some(conn),
            Err(_) => None,
        },
        None => None,
    }
}
