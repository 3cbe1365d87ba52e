//! The parts that are wanted of an application, listed in the order in which they are asked for.

ghost use Rattle.std.specs.Prelude.{◌≡◌, [], drop};
ghost use Rattle.std.specs.Option.{option_map};
ghost use Rattle.atspi_protocol.specs.following.Wishes.{same_part};
ghost use Rattle.atspi_reader_known.specs.Wanted.{first, lent};
ghost use Rattle.atspi_reader_known.specs.Listed as listed;
ghost use Rattle.atspi_reader_known.specs.Listed.{left, or_others};

use crate::refused::Refused;
use atspi_base::valid_names::Path;
use atspi_protocol::news::PartName;
use std::alloc::Global;
use std::marker::Model;

/// Parts of rows, each with the path of its row, in the order in which they are asked for. The first one goes without a
/// step over the others.
#[derive(Drop)]
pub(crate) struct Wants {
    items: Vec<(Path, PartName)>,
    gone: usize,
}

impl Model for Wants {
    ghost use Rattle.std.specs.Prelude.{ℕ, ◌≤◌, List, drop, length};
    ghost use Rattle.atspi_protocol.specs.declared.news.part.PartName.{PartName};
    ghost use Rattle.atspi_reader_known.specs.FollowedCode.{refused_code};

    ghost Value = { List (List ℕ × PartName) };

    ghost coded = { refused_code };

    ghost view = { λ w. drop w.gone w.items.items };

    ghost invariant = { λ w. w.gone ≤ length w.items.items };
}

/// Whether two names are of the same part.
fn is_same_part(one: PartName, other: PartName) -> bool
    ensures { result ≡ same_part one other }
{
    match one {
        PartName::Text => matches!(other, PartName::Text),
        PartName::Caret => matches!(other, PartName::Caret),
        PartName::Columns => matches!(other, PartName::Columns),
    }
}

/// The first one that is not among these.
fn first_among<'a>(wants: &'a [(Path, PartName)], more: &Refused) -> Option<(&'a Path, PartName)>
    ensures { option_map lent result ≡ first (left more.now wants.now) }
{
    for want in wants {
        if !more.has(&want.0, want.1) {
            return Some((&want.0, want.1));
        }
    }
    None
}

impl Wants {
    /// No part.
    pub(crate) fn new(alloc: Global) -> Wants
        ensures { result ≡ [] }
    {
        Wants {
            items: Vec::new(alloc),
            gone: 0,
        }
    }

    /// These parts.
    pub(crate) fn of(items: Vec<(Path, PartName)>) -> Wants
        ensures { result ≡ items.items }
    {
        Wants { items, gone: 0 }
    }

    /// The parts in order.
    fn as_slice(&self) -> &[(Path, PartName)]
        ensures { result.now ≡ self.now }
    {
        let items = self.items.as_slice();
        &items[self.gone..]
    }

    /// Whether there is none.
    pub(crate) fn is_empty(&self) -> bool
        ensures { result ≡ listed.is_empty self.now }
    {
        self.as_slice().is_empty()
    }

    /// Whether the first one is this part of the row with this path.
    pub(crate) fn begins_with(&self, path: &Path, part: PartName) -> bool
        ensures { result ≡ listed.begins_with self.now (path.now, part) }
    {
        match self.as_slice().first() {
            Some(want) => want.0.is(path) && is_same_part(want.1, part),
            None => false,
        }
    }

    /// The first one goes, if there is one.
    pub(crate) fn take_first(&mut self)
        ensures { self.new ≡ drop 1 self.old }
    {
        if self.gone < self.items.len() {
            self.gone += 1;
        }
    }

    /// Others stand in their place, if there are any.
    pub(crate) fn put(&mut self, others: Wants)
        ensures { self.new ≡ or_others others self.old }
    {
        if !others.is_empty() {
            *self = others;
        }
    }

    /// The first one that is not among these.
    pub(crate) fn first_left(&self, more: &Refused) -> Option<(&Path, PartName)>
        ensures { option_map lent result ≡ first (left more.now self.now) }
    {
        first_among(self.as_slice(), more)
    }
}
