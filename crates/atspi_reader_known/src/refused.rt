//! The parts that an application would not tell.

ghost use Rattle.std.specs.Prelude.{◌≡◌, ℕ, List, [], ◌∷◌, ◌++◌, true, false, cond, bytes_eq, Some, None, Option, OnOk};
ghost use Rattle.std.specs.Prelude.{OnErr, filter};
ghost use Rattle.std.specs.BTreeSet.{contains_text};
ghost use Rattle.atspi_protocol.specs.declared.news.part.PartName.{PartName};
ghost use Rattle.atspi_protocol.specs.following.Wishes as wishes;
ghost use Rattle.atspi_reader_known.specs.Places.{place_in};
ghost use Rattle.atspi_reader_known.specs.Refusals.{AreBelow, AreSame, Clears, Puts, counting, counts, has_part};
ghost use Rattle.atspi_reader_known.specs.Refusals.{or_place, without};

use crate::places::Places;
use atspi_base::NoMemory;
use atspi_base::valid_names::Path;
use atspi_protocol::news::PartName;
use std::alloc::Global;
use std::collections::BTreeSet;
use std::marker::Model;

/// Parts of rows that an application would not tell, each with the path of its row, in the order in which they were
/// asked for. Whether one is there is looked up, and those of a path are forgotten, in log n steps.
#[derive(Drop)]
pub struct Refused {
    alloc: Global,
    /// Those that were refused, of those that were forgotten too some that were not let go yet.
    items: Vec<Entry>,
    /// The number of the next one.
    next: usize,
    /// Once so many stand there, those that were forgotten are let go.
    limit: usize,
    /// From which number on the parts of a path count; those of a path without a number were forgotten.
    since: Places,
    parts: Parts,
}

/// A part that was refused, with its number; numbers rise.
#[derive(Drop)]
pub(crate) struct Entry {
    number: usize,
    path: Path,
    part: PartName,
}

/// So many may stand there before any is let go.
const LEAST: usize = 16;

/// The paths of the rows of which each part was refused.
#[derive(Drop)]
pub(crate) struct Parts {
    texts: BTreeSet<String>,
    carets: BTreeSet<String>,
    columns: BTreeSet<String>,
}

impl Model for Refused {
    ghost use Rattle.std.specs.Prelude.{ℕ, List};
    ghost use Rattle.atspi_protocol.specs.declared.news.part.PartName.{PartName};
    ghost use Rattle.atspi_reader_known.specs.FollowedCode.{refused_code};

    ghost Value = { List (List ℕ × PartName) };

    ghost coded = { refused_code };

    ghost use Rattle.atspi_reader_known.specs.Places.{place_in};
    ghost use Rattle.atspi_reader_known.specs.Refusals.{AreBelow, AreSame, AreWithin, counting};

    ghost view = { λ r. counting (place_in r.since) r.items.items };

    ghost invariant = { λ r. AreSame r.parts (counting (place_in r.since) r.items.items)
        × AreWithin (place_in r.since) r.next × AreBelow r.items.items r.next };
}

/// Puts a path into a set. After want of memory the set is as before.
fn put(alloc: Global, set: &mut BTreeSet<String>, path: &Path) -> Result<(), NoMemory>
    ensures ok { OnOk result
        ((q : List ℕ) → contains_text set.new q ≡ cond (bytes_eq path.now q) true (contains_text set.old q)) }
    ensures err { OnErr result ((q : List ℕ) → contains_text set.new q ≡ contains_text set.old q) }
{
    let path = String::from_str(alloc, path.as_str())?;
    set.insert(path)?;
    Ok(())
}

/// The parts of a path count from a place on, unless they do from one before. After want of memory all is as before.
fn note(since: &mut Places, path: &Path, place: usize) -> Result<(), NoMemory>
    ensures ok { OnOk result ((q : List ℕ) → place_in since.new q
        ≡ cond (bytes_eq path.now q) (or_place (place_in since.old q) place) (place_in since.old q)) }
    ensures err { OnErr result ((q : List ℕ) → place_in since.new q ≡ place_in since.old q) }
{
    let name = path.as_str();
    if since.find(name).is_some() {
        return Ok(());
    }
    since.put(name, place)
}

/// Whether a part counts.
fn is_counted(since: &Places, entry: &Entry) -> bool
    ensures { result ≡ counts (place_in since.now entry.now.path) entry.now.number }
{
    match since.find(entry.path.as_str()) {
        Some(number) => number <= entry.number,
        None => false,
    }
}

/// Those that count are kept.
fn keep_counted(items: &mut Vec<Entry>, since: &Places)
    ensures { items.new.items
        ≡ filter (λ (e : Entry). counts (place_in since.now e.path) e.number) items.old.items }
{
    items.retain(|entry| is_counted(since, entry));
}

/// Those that were forgotten are let go once as many stand there as twice what was left the last time: so half of all
/// go at least, and each costs what it cost to be refused, however often its row goes and comes.
fn let_go(items: &mut Vec<Entry>, since: &Places, limit: &mut usize)
    ensures counting { counting (place_in since.now) items.new.items ≡ counting (place_in since.now) items.old.items }
    ensures below { (next : ℕ) → AreBelow items.old.items next → AreBelow items.new.items next }
{
    if items.len() < *limit {
        return;
    }
    keep_counted(items, since);
    *limit = items.len().saturating_mul(2).max(LEAST);
}

/// Takes a path out of a set.
fn take_out(set: &mut BTreeSet<String>, path: &Path)
    ensures { (q : List ℕ) → contains_text set.new q ≡ cond (bytes_eq path.now q) false (contains_text set.old q) }
{
    set.remove(path.as_str());
}

impl Parts {
    /// No path.
    fn new(alloc: Global) -> Parts
        ensures { AreSame result [] }
    {
        Parts {
            texts: BTreeSet::new(alloc),
            carets: BTreeSet::new(alloc),
            columns: BTreeSet::new(alloc),
        }
    }

    /// Whether the part of the row with this path was refused.
    fn has(&self, path: &Path, part: PartName) -> bool
        ensures { result ≡ has_part self.now path.now part }
    {
        match part {
            PartName::Text => self.texts.contains(path.as_str()),
            PartName::Caret => self.carets.contains(path.as_str()),
            PartName::Columns => self.columns.contains(path.as_str()),
        }
    }

    /// The part of the row with this path was refused. After want of memory all is as before.
    fn put(&mut self, alloc: Global, path: &Path, part: PartName) -> Result<(), NoMemory>
        ensures ok { OnOk result (Puts self.old self.new path.now part) }
        ensures err { OnErr result ((q : List ℕ) (p : PartName) → has_part self.new q p ≡ has_part self.old q p) }
    {
        match part {
            PartName::Text => put(alloc, &mut self.texts, path),
            PartName::Caret => put(alloc, &mut self.carets, path),
            PartName::Columns => put(alloc, &mut self.columns, path),
        }
    }

    /// No part of the row with this path was refused.
    fn clear(&mut self, path: &Path)
        ensures { Clears self.old self.new path.now }
    {
        take_out(&mut self.texts, path);
        take_out(&mut self.carets, path);
        take_out(&mut self.columns, path);
    }
}

impl Refused {
    /// No part.
    pub fn new(alloc: Global) -> Refused
        ensures { result ≡ [] }
    {
        Refused {
            alloc,
            items: Vec::new(alloc),
            next: 0,
            limit: LEAST,
            since: Places::new(alloc),
            parts: Parts::new(alloc),
        }
    }

    /// Whether the part of the row with this path is among them.
    pub fn has(&self, path: &Path, part: PartName) -> bool
        ensures { result ≡ wishes.is_refused self.now path.now part }
    {
        self.parts.has(path, part)
    }

    /// Appends a part. After want of memory all is as before.
    pub fn push(&mut self, path: Path, part: PartName) -> Result<(), NoMemory>
        ensures ok { OnOk result (self.new ≡ self.old ++ (path, part) ∷ []) }
        ensures err { OnErr result (self.new ≡ self.old) }
    {
        if self.next == usize::MAX {
            return Err(NoMemory);
        }
        let_go(&mut self.items, &self.since, &mut self.limit);
        self.items.reserve(1)?;
        note(&mut self.since, &path, self.next)?;
        self.parts.put(self.alloc, &path, part)?;
        let number = self.next;
        self.next += 1;
        match self.items.push(Entry { number, path, part }) {
            Ok(()) => Ok(()),
            Err(_) => unreachable!(),
        }
    }

    /// Whether a part of the row with this path may be among them: where it is not so, none is.
    pub fn may_have(&self, path: &Path) -> bool
        ensures { result ≡ false → without (Some path.now) self.now ≡ self.now }
    {
        self.since.find(path.as_str()).is_some()
    }

    /// The parts of the row with this path, if one is given, are no longer among them.
    pub fn forget(&mut self, path: Option<Path>)
        ensures { self.new ≡ without path self.old }
    {
        if let Some(path) = path {
            self.since.remove(path.as_str());
            self.parts.clear(&path);
        }
    }
}
