//! A connection: who it is, whether it is there, its unique name, and its link to the bus.

ghost use Rattle.std.specs.Prelude.{◌≡◌, None, []};
ghost use Rattle.atspi_world_links.specs.Posts as posts;

use crate::link::Link;
use atspi_base::valid_names::BusName;
use atspi_script_lines::Party;
use std::alloc::Global;

/// Whether an end is there.
#[derive(Clone, Copy, Debug, PartialEq, Eq)]
pub enum Standing {
    Here,
    /// It stopped, and the bus was not told yet.
    Stopped,
    /// It left the bus.
    Away,
}

/// A connection.
#[derive(Drop)]
pub struct Post {
    pub who: Party,
    pub standing: Standing,
    /// Its unique name, once the bus gave it.
    pub name: Option<BusName>,
    /// What it sent and the bus did not take yet.
    pub up: Link,
    /// So many bytes of the first message of them were moved.
    pub begun: usize,
}

impl Post {
    /// A connection that sent nothing yet.
    pub fn new(alloc: Global, who: Party) -> Post
        ensures who { result.who ≡ who }
        ensures here { result.standing ≡ Standing.Here }
        ensures unnamed { result.name ≡ None }
        ensures up { result.up ≡ [] }
        ensures begun { result.begun ≡ 0 }
    {
        Post {
            who,
            standing: Standing::Here,
            name: None,
            up: Link::new(alloc),
            begun: 0,
        }
    }

    /// It stops: what waits on its link is lost.
    pub fn stop(&mut self)
        ensures { self.new ≡ record self.old { standing = Standing.Stopped; up = []; begun = 0 } }
    {
        self.standing = Standing::Stopped;
        self.up.clear();
        self.begun = 0;
    }

    /// It leaves: what waits on its link is lost.
    pub fn leave(&mut self)
        ensures { self.new ≡ record self.old { standing = Standing.Away; up = []; begun = 0 } }
    {
        self.standing = Standing::Away;
        self.up.clear();
        self.begun = 0;
    }

    /// Whether it has or had this unique name.
    pub fn is_named(&self, name: &str) -> bool
        ensures { result ≡ posts.is_named name.now self.now }
    {
        match &self.name {
            Some(own) => own.as_str() == name,
            None => false,
        }
    }
}
