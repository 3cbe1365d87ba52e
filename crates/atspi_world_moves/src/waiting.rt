//! What waits.

ghost use Rattle.std.specs.Prelude.{◌≡◌, ◌≤◌, length};
ghost use Rattle.atspi_tree_model.specs.Forest.{first_of};
ghost use Rattle.atspi_bus_steps.specs.InnerBus.{inner_of};
ghost use Rattle.atspi_world_moves.specs.Waits as waits;

use crate::carrier::Carrier;
use atspi_world_links::{Post, Standing};

/// The first thing that waits, with the number of its connection.
#[derive(Clone, Copy, Debug, PartialEq, Eq)]
pub enum Turn {
    /// A message on an up link.
    Route(u32),
    /// An end that stopped.
    Part(u32),
    /// A message, or a part of one, on a down link.
    Get(u32),
}

/// Whether something waits on an up link: a message, or that the end stopped.
fn up_turn(post: &Post, conn: u32) -> Option<Turn>
    ensures { result ≡ waits.up_turn conn post.now }
{
    match post.standing {
        Standing::Here => {
            if post.up.is_empty() {
                None
            } else {
                Some(Turn::Route(conn))
            }
        }
        Standing::Stopped => Some(Turn::Part(conn)),
        Standing::Away => None,
    }
}

/// The first up link on which something waits, in order of joining.
fn first_up(posts: &[Post]) -> Option<Turn>
    ensures { length posts.now ≤ 4294967296 → result ≡ waits.first_up 0 posts.now }
{
    let mut conn: u32 = 0;
    for post in posts {
        if let Some(turn) = up_turn(post, conn) {
            return Some(turn);
        }
        conn = conn.saturating_add(1);
    }
    None
}

impl Carrier {
    /// Whether bytes wait for an end that is there.
    fn waits_below(&self, post: &Post, conn: u32) -> bool
        ensures { result ≡ waits.waits_at (inner_of self.now.bus) self.now.at_end.items conn post.now.standing }
    {
        if post.standing != Standing::Here {
            return false;
        }
        if self.bus.waiting(conn) > 0 {
            return true;
        }
        match self.at_end.get(conn as usize) {
            Some(link) => link.len() > 0,
            None => false,
        }
    }

    /// The first down link on which something waits, in order of joining.
    fn first_down(&self) -> Option<Turn>
        ensures { length self.now.posts.items ≤ 4294967296
            → result ≡ waits.first_down (inner_of self.now.bus) self.now.at_end.items 0 self.now.posts.items }
    {
        let mut conn: u32 = 0;
        for post in &self.posts {
            if self.waits_below(post, conn) {
                return Some(Turn::Get(conn));
            }
            conn = conn.saturating_add(1);
        }
        None
    }

    /// The first thing that waits: the first up link on which something does, in order of joining, and else the first
    /// down link of an end that is there.
    pub fn next_turn(&self) -> Option<Turn>
        ensures { length self.now.posts.items ≤ 4294967296
            → result
            ≡ first_of (waits.first_up 0 self.now.posts.items)
            (waits.first_down (inner_of self.now.bus) self.now.at_end.items 0 self.now.posts.items) }
    {
        match first_up(&self.posts) {
            Some(turn) => Some(turn),
            None => self.first_down(),
        }
    }
}
