//! Connections by their names.

ghost use Rattle.std.specs.Prelude.{◌≡◌};
ghost use Rattle.atspi_message_in_place.specs.View.{bytes_of};
ghost use Rattle.atspi_world_links.specs.Named as named;

use crate::post::Post;
use atspi_script_lines::Party;

/// The party of the first connection that has or had this unique name; the bus, where none has.
fn first_named(posts: &[Post], name: &str) -> Party
    ensures { result ≡ named.first_named name.now posts.now }
{
    for post in posts {
        if post.is_named(name) {
            return post.who;
        }
    }
    Party::Bus
}

/// The party whose messages have this sender: the bus, or the end that has or had that unique name.
pub fn party_named(posts: &[Post], name: Option<&str>) -> Party
    ensures { result ≡ named.party_named (bytes_of name.entry) posts.now }
{
    match name {
        Some(name) => first_named(posts, name),
        None => Party::Bus,
    }
}

/// The first application that has or had a unique name.
pub fn named_app(posts: &[Post], name: &str) -> Option<u32>
    ensures { result ≡ named.app_named name.now posts.now }
{
    for post in posts {
        if let Party::App(app) = post.who {
            if post.is_named(name) {
                return Some(app);
            }
        }
    }
    None
}
