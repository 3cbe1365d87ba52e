//! An application that a reader knows.

ghost use Rattle.std.specs.Prelude.{◌≡◌, [], ◌++◌, ◌||◌, ◌&&◌, false, cond, bytes_eq, IfOk, OnOk, OnErr, None, Some};
ghost use Rattle.std.specs.Option.{option_map};
ghost use Rattle.atspi_cache_arena.specs.Sights.{sights};
ghost use Rattle.atspi_tree_model.specs.Forest.{Forest, find, has};
ghost use Rattle.atspi_tree_model.specs.News.{is_path, load};
ghost use Rattle.atspi_tree_model.specs.declared.news.News.TheVariants.{ChildAdded, Item as NewItem};
ghost use Rattle.atspi_speech.specs.Looked.{adds};
ghost use Rattle.atspi_tree_model.specs.declared.view.Row.{Row};
ghost use Rattle.atspi_protocol.specs.following.ReaderState.{Followed, is_named};
ghost use Rattle.atspi_protocol.specs.following.Wishes.{of_others, wishes_of};
ghost use Rattle.atspi_protocol.specs.following.Replied as replied;
ghost use Rattle.atspi_protocol.specs.following.Takes as takes;
ghost use Rattle.atspi_reader_known.specs.Kept.{kept, lines_in, closing_in};
ghost use Rattle.atspi_reader_known.specs.Listed.{fresh_wants};
ghost use Rattle.atspi_reader_known.specs.Refusals.{without};
ghost use Rattle.atspi_reader_known.specs.Wanted.{first, lent, part_question, refusing, wish_at};

use crate::fresh::fresh_part;
use crate::listing::{follows, item_wants, put_fresh, relist, tells_first};
use crate::refused::Refused;
use crate::unknown::first_wanted;
use crate::wants::Wants;
use atspi_base::valid_names::{BusName, Path};
use atspi_base::{NoMemory, Text, Texts};
use atspi_cache::{Cache, Rows, closing, lines};
use atspi_protocol::following::Question;
use atspi_protocol::news::PartName;
use atspi_tree_model::{Item, Items, News};
use std::alloc::Global;
use std::marker::Model;

/// The number of an application in its own cache.
pub(crate) const HERE: u32 = 0;

/// An application that a reader knows: its bus name and the path of its root, its view where it is held, whether all of
/// it is to be asked for again, the serial of the last message taken from it, and the parts that it would not tell.
/// Each has a cache of its own, so that nothing that is done to one touches another. Beside that it keeps what is
/// wanted of it as a list, which follows news and replies where it can, so that the first wish is found without a walk
/// over the rows; where it cannot, the next reply lists it anew.
#[derive(Drop)]
pub struct App {
    alloc: Global,
    name: BusName,
    root: Path,
    cache: Cache,
    reload: bool,
    last: u32,
    refused: Refused,
    listed: bool,
    wants: Wants,
}

impl Model for App {
    ghost use Rattle.atspi_tree_model.specs.contracts.view.Row as view_row;
    ghost use Rattle.atspi_protocol.specs.following.ReaderState.{Followed};
    ghost use Rattle.atspi_reader_known.specs.FollowedCode.{followed_code};
    ghost use Rattle.atspi_reader_known.specs.Kept.{kept, rows_of, IsKept};
    ghost use Rattle.atspi_reader_known.specs.Listed.{IsOnce, IsSoListed};

    ghost Value = { Followed };

    ghost coded = { followed_code view_row.the_row.coded };

    ghost view = { λ a.
        record {
          name = a.name;
          root = a.root;
          view = rows_of (kept a.cache);
          reload = a.reload;
          last = a.last;
          refused = a.refused;
        } };

    ghost invariant = { λ a. IsKept a.name a.root (kept a.cache) × IsOnce (kept a.cache)
        × IsSoListed a.listed a.wants
        (record {
          name = a.name;
          root = a.root;
          view = rows_of (kept a.cache);
          reload = a.reload;
          last = a.last;
          refused = a.refused;
        }) };
}

/// Whether a text has the characters of a bus name.
fn is_bus(text: &Text, name: &BusName) -> bool
    ensures { result ≡ bytes_eq text.now name.now }
{
    text.as_str() == name.as_str()
}

/// Whether one of the two is so.
fn is_either(one: bool, other: bool) -> bool
    ensures { result ≡ (one || other) }
{
    one || other
}

/// Whether both are so.
fn both(one: bool, other: bool) -> bool
    ensures { result ≡ (one && other) }
{
    one && other
}

/// A cache with the view of these items. What a bus name spells is the name itself.
fn told(alloc: Global, name: &BusName, root: &Path, items: Items) -> Result<Cache, NoMemory>
    ensures { IfOk result
        (λ cache. kept cache ≡ Some (record { bus = name.now; root = root.now; rows = load root.now name.now items })) }
{
    let _spelled = name.as_str();
    let mut cache = Cache::new(alloc);
    cache.load(HERE, name, root, items)?;
    Ok(cache)
}

/// Whether the two paths are the same, as a test that computes.
fn is_same_path(one: &Path, other: &Path) -> bool
    ensures { result ≡ bytes_eq one.now other.now }
{
    one.is(other)
}

impl App {
    /// An application of which nothing was asked yet.
    pub fn new(alloc: Global, name: BusName, root: Path) -> App
        ensures { result ≡ record { name = name; root = root; view = None; reload = false; last = 0; refused = [] } }
    {
        App {
            alloc,
            name,
            root,
            cache: Cache::new(alloc),
            reload: false,
            last: 0,
            refused: Refused::new(alloc),
            listed: false,
            wants: Wants::new(alloc),
        }
    }

    /// Its bus name.
    pub fn name(&self) -> &BusName
        ensures { result.now ≡ self.now.name }
    {
        &self.name
    }

    /// Whether it has this bus name.
    pub fn is(&self, name: &str) -> bool
        ensures { result ≡ is_named name.now self.now }
    {
        self.name.as_str() == name
    }

    /// Whether it is held.
    pub fn is_held(&self) -> bool
        ensures { result ≡ takes.is_held self.now }
    {
        self.cache.is_held(HERE)
    }

    /// The serial of the last message taken from it, where it is held.
    pub fn last(&self) -> Option<u32>
        ensures { result ≡ takes.last_of (Some self.now) }
    {
        if self.cache.is_held(HERE) {
            Some(self.last)
        } else {
            None
        }
    }

    /// Its rows in preorder, where it is held.
    pub fn rows(&self) -> Option<Rows>
        ensures { result ≡ option_map (λ (view : Forest Row). sights view) self.now.view }
    {
        self.cache.rows(HERE)
    }

    /// The serial of a message of it is noted.
    pub fn note(&mut self, serial: u32)
        ensures { self.new ≡ takes.noted serial self.old }
    {
        self.last = serial;
    }

    /// The application with all of it told by these items. It is made beside the one that is known.
    pub fn loaded(&self, alloc: Global, items: Items) -> Result<App, NoMemory>
        ensures { IfOk result (λ app. app ≡ replied.loaded items self.now) }
    {
        let name = self.name.copy(alloc)?;
        let root = self.root.copy(alloc)?;
        let cache = told(alloc, &self.name, &self.root, items)?;
        let refused = Refused::new(alloc);
        let mut wants = Wants::new(alloc);
        let listed = relist(alloc, &cache, false, &refused, &mut wants);
        Ok(App {
            alloc,
            name,
            root,
            cache,
            reload: false,
            last: self.last,
            refused,
            listed,
            wants,
        })
    }

    /// A news changes its view, where it is held. After want of memory all is as before.
    pub fn fold(&mut self, news: News) -> Result<(), NoMemory>
        ensures ok { OnOk result (self.new ≡ takes.folded news self.old) }
        ensures err { OnErr result (self.new ≡ self.old) }
    {
        if !self.cache.is_held(HERE) {
            drop(news);
            return Ok(());
        }
        let gone = self.gone_refusals(&news)?;
        let stays = both(self.listed, follows(&self.cache, &self.wants, &news));
        let fresh = self.fresh_wants(&news);
        let marks = self.cache.fold(HERE, news)?;
        self.refused.forget(gone);
        self.reload = is_either(self.reload, marks);
        self.listed = both(stays, put_fresh(&mut self.wants, fresh));
        Ok(())
    }

    /// The path of which parts were refused of a row that is gone, where a news has an item of that path; given before
    /// it is taken.
    fn gone_refusals(&self, news: &News) -> Result<Option<Path>, NoMemory>
        ensures { (view : Forest Row) → self.now.view ≡ Some view
            → IfOk result (λ path. without path self.now.refused ≡ takes.still_refused view news.now self.now.refused) }
    {
        match news {
            News::Item(item) => self.gone_of(&item.object.path),
            _ => Ok(None),
        }
    }

    /// This path, where it has no row, and parts of it may have been refused.
    fn gone_of(&self, path: &Path) -> Result<Option<Path>, NoMemory>
        ensures { (view : Forest Row) → self.now.view ≡ Some view
            → IfOk result (λ gone. without gone self.now.refused
            ≡ cond (has (is_path path.now) view) self.now.refused (of_others path.now self.now.refused)) }
    {
        if self.cache.find(HERE, path).is_some() {
            return Ok(None);
        }
        if !self.refused.may_have(path) {
            return Ok(None);
        }
        Ok(Some(path.copy(self.alloc)?))
    }

    /// A part of a row was told, which never asks for all again. After want of memory all is as before.
    pub fn tell(&mut self, news: News) -> Result<(), NoMemory>
        ensures ok { OnOk result (self.new ≡ replied.told_part news self.old) }
        ensures err { OnErr result (self.new ≡ self.old) }
    {
        if !self.cache.is_held(HERE) {
            drop(news);
            return Ok(());
        }
        let first = both(self.listed, tells_first(&self.wants, &news));
        self.cache.fold(HERE, news)?;
        if first {
            self.wants.take_first();
            return Ok(());
        }
        self.listed = relist(
            self.alloc,
            &self.cache,
            self.reload,
            &self.refused,
            &mut self.wants,
        );
        Ok(())
    }

    /// A part of a row was refused. After want of memory all is as before.
    pub fn refuse(&mut self, path: Path, part: PartName) -> Result<(), NoMemory>
        ensures ok { OnOk result (self.new ≡ replied.refused_part path part self.old) }
        ensures err { OnErr result (self.new ≡ self.old) }
    {
        let first = both(self.listed, self.wants.begins_with(&path, part));
        self.refused.push(path, part)?;
        if first {
            self.wants.take_first();
            return Ok(());
        }
        self.listed = relist(
            self.alloc,
            &self.cache,
            self.reload,
            &self.refused,
            &mut self.wants,
        );
        Ok(())
    }

    /// Appends the lines that are spoken at a news, given before it is taken. After want of memory `out` is as before.
    pub fn lines(&self, news: &News, out: &mut Texts) -> Result<(), NoMemory>
        ensures ok { OnOk result (out.new ≡ out.old ++ lines_in news.now self.now) }
        ensures err { OnErr result (out.new ≡ out.old) }
    {
        if !self.cache.is_held(HERE) {
            return Ok(());
        }
        lines(&self.cache, HERE, news, out)
    }

    /// Appends the line that is spoken where it ends. After want of memory `out` is as before.
    pub fn closing(&self, out: &mut Texts) -> Result<(), NoMemory>
        ensures ok { OnOk result (out.new ≡ out.old ++ closing_in self.now) }
        ensures err { OnErr result (out.new ≡ out.old) }
    {
        if !self.cache.is_held(HERE) {
            return Ok(());
        }
        out.push(closing(&self.cache, HERE)?)
    }

    /// What is wanted of it first.
    pub(crate) fn wish_now(&self, alloc: Global) -> Result<Option<Question>, NoMemory>
        ensures { IfOk result (λ wish. wish ≡ first (wishes_of self.now)) }
    {
        self.wish(alloc, &Refused::new(alloc))
    }

    /// What is wanted of it first, if these parts too were refused. It walks over the rows, up to the first that has
    /// such a part, only where what is wanted could not be listed.
    pub(crate) fn wish(&self, alloc: Global, more: &Refused) -> Result<Option<Question>, NoMemory>
        ensures { IfOk result (λ wish. wish ≡ first (wishes_of (refusing more.now self.now))) }
    {
        if self.listed {
            return self.part_wish(alloc, self.wants.first_left(more));
        }
        if self.reload {
            return Ok(Some(Question::GetItems(self.name.copy(alloc)?)));
        }
        match self.cache.rows(HERE) {
            Some(rows) => self.part_wish(alloc, first_wanted(rows, &self.refused, more)),
            None => Ok(Some(Question::GetItems(self.name.copy(alloc)?))),
        }
    }

    /// The question for a part that was found.
    fn part_wish(
        &self,
        alloc: Global,
        found: Option<(&Path, PartName)>,
    ) -> Result<Option<Question>, NoMemory>
        ensures { IfOk result (λ wish. wish ≡ option_map (part_question self.now.name) (option_map lent found.entry)) }
    {
        match found {
            Some((path, part)) => {
                let name = self.name.copy(alloc)?;
                let path = path.copy(alloc)?;
                Ok(Some(Question::GetPart(name, path, part)))
            }
            None => Ok(None),
        }
    }

    /// What a news of it makes wanted, given before it is taken, where nothing else is wanted of it: an item that adds
    /// a node makes the first of the node's parts wanted, and the addition of a child that is not known makes all of
    /// the application wanted.
    pub fn news_wish(&self, alloc: Global, news: &News) -> Result<Option<Question>, NoMemory>
        requires nothing { wishes_of self.now ≡ [] }
        ensures { IfOk result (λ wish. wish ≡ first (wishes_of (takes.folded news.now self.now))) }
    {
        if !self.cache.is_held(HERE) {
            return Ok(None);
        }
        match news {
            News::Item(item) => self.item_wish(alloc, item),
            News::ChildAdded(child) => self.child_wish(alloc, child),
            _ => Ok(None),
        }
    }

    /// What the addition of a child makes wanted.
    fn child_wish(&self, alloc: Global, child: &Path) -> Result<Option<Question>, NoMemory>
        ensures { (view : Forest Row) → self.now.view ≡ Some view
            → IfOk result (λ wish. wish ≡ wish_at self.now view (ChildAdded child.now)) }
    {
        if self.cache.find(HERE, child).is_some() {
            return Ok(None);
        }
        Ok(Some(Question::GetItems(self.name.copy(alloc)?)))
    }

    /// Whether an item adds a node to its view.
    fn adds(&self, item: &Item) -> bool
        ensures { (view : Forest Row) → self.now.view ≡ Some view
            → result
            ≡ adds self.now.root self.now.name (find (is_path item.now.object.path) view)
            (has (is_path item.now.parent.path) view) item.now }
    {
        if !is_bus(&item.object.bus, &self.name) || is_same_path(&item.object.path, &self.root) {
            return false;
        }
        if self.cache.find(HERE, &item.object.path).is_some()
            || !is_bus(&item.parent.bus, &self.name)
        {
            return false;
        }
        self.cache.find(HERE, &item.parent.path).is_some()
    }

    /// The parts of the node that a news adds to its view.
    fn fresh_wants(&self, news: &News) -> Result<Wants, NoMemory>
        ensures { (view : Forest Row) → self.now.view ≡ Some view
            → IfOk result (λ wants. wants ≡ fresh_wants self.now view news.now) }
    {
        match news {
            News::Item(item) => self.added_wants(item),
            _ => Ok(Wants::new(self.alloc)),
        }
    }

    /// Those of the node of an item, where the item adds one.
    fn added_wants(&self, item: &Item) -> Result<Wants, NoMemory>
        ensures { (view : Forest Row) → self.now.view ≡ Some view
            → IfOk result (λ wants. wants ≡ fresh_wants self.now view (NewItem item.now)) }
    {
        if !self.adds(item) {
            return Ok(Wants::new(self.alloc));
        }
        item_wants(self.alloc, item)
    }

    /// What an item makes wanted.
    fn item_wish(&self, alloc: Global, item: &Item) -> Result<Option<Question>, NoMemory>
        ensures { (view : Forest Row) → self.now.view ≡ Some view
            → IfOk result (λ wish. wish ≡ wish_at self.now view (NewItem item.now)) }
    {
        if !self.adds(item) {
            return Ok(None);
        }
        match fresh_part(item) {
            Some(part) => {
                let name = self.name.copy(alloc)?;
                let path = item.object.path.copy(alloc)?;
                Ok(Some(Question::GetPart(name, path, part)))
            }
            None => Ok(None),
        }
    }
}
