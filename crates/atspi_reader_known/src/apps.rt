//! The applications that a reader knows.

ghost use Rattle.std.specs.Prelude.{◌≡◌, ◌-◌, ◌<◌, [], ◌∷◌, ◌++◌, false, not, filter, length, take, map, flat_map};
ghost use Rattle.std.specs.Prelude.{IfOk, OnOk, OnErr};
ghost use Rattle.std.specs.List.{list_any, position};
ghost use Rattle.std.specs.Option.{option_copied};
ghost use Rattle.atspi_protocol.specs.following.ReaderState.{is_named};
ghost use Rattle.atspi_protocol.specs.following.Wishes.{wishes};
ghost use Rattle.atspi_protocol.specs.following.Replied as replied;
ghost use Rattle.atspi_protocol.specs.following.Replied.{changed};
ghost use Rattle.atspi_protocol.specs.following.Takes as takes;
ghost use Rattle.atspi_reader_known.specs.Places.{AreFound};
ghost use Rattle.atspi_reader_known.specs.Wanted.{first};
ghost use Rattle.atspi_reader_known.specs.Planned.{one_planned, first_planned};

use crate::app::App;
use crate::places::Places;
use crate::plan::Plan;
use atspi_base::NoMemory;
use atspi_base::valid_names::Path;
use atspi_protocol::following::Question;
use atspi_protocol::news::PartName;
use atspi_tree_model::News;
use std::alloc::Global;
use std::marker::Model;
use std::mem;

/// The applications that a reader knows, in the order in which they became known. No two have one name. Which one has a
/// name is looked up, in log n steps; to forget one takes a walk over all, and so does what is wanted first.
#[derive(Drop)]
pub struct Apps {
    items: Vec<App>,
    places: Places,
}

impl Model for Apps {
    ghost use Rattle.std.specs.Prelude.{List};
    ghost use Rattle.std.specs.Coded.{coded_list};
    ghost use Rattle.atspi_tree_model.specs.contracts.view.Row as view_row;
    ghost use Rattle.atspi_protocol.specs.following.ReaderState.{Followed};
    ghost use Rattle.atspi_reader_known.specs.FollowedCode.{followed_code};
    ghost use Rattle.atspi_reader_known.specs.Places.{AreFound};

    ghost Value = { List Followed };

    ghost coded = { coded_list (followed_code view_row.the_row.coded) };

    ghost view = { λ a. a.items.items };

    ghost invariant = { λ a. AreFound a.places a.items.items };
}

/// What is wanted of an application first, if the plan for the one with this name is done.
fn planned_wish(
    alloc: Global,
    app: &App,
    name: &str,
    plan: Plan,
) -> Result<Option<Question>, NoMemory>
    ensures { IfOk result (λ wish. wish ≡ first (wishes (one_planned plan.entry name.now app.now))) }
{
    if !app.is(name) {
        return app.wish_now(alloc);
    }
    match plan {
        Plan::Settle(more) => app.wish(alloc, more),
        Plan::Put(other) => other.wish_now(alloc),
        Plan::Forget => Ok(None),
    }
}

/// What is wanted first of these, if the plan is done.
fn first_planned(
    alloc: Global,
    apps: &[App],
    name: &str,
    plan: Plan,
) -> Result<Option<Question>, NoMemory>
    ensures { IfOk result (λ wish. wish ≡ first_planned plan.entry name.now apps.now) }
{
    for app in apps {
        if let Some(wish) = planned_wish(alloc, app, name, plan)? {
            return Ok(Some(wish));
        }
    }
    Ok(None)
}

/// The last application is forgotten.
fn cut_one(items: &mut Vec<App>, places: &mut Places)
    ensures items { items.new.items ≡ take (length items.old.items - 1) items.old.items }
    ensures found { AreFound places.old items.old.items → AreFound places.new items.new.items }
{
    if let Some(app) = items.pop() {
        places.remove(app.name().as_str());
    }
}

/// Only the first so many applications stay known.
fn cut(items: &mut Vec<App>, places: &mut Places, count: usize)
    ensures items { items.new.items ≡ take count items.old.items }
    ensures found { AreFound places.old items.old.items → AreFound places.new items.new.items }
{
    while items.len() > count {
        cut_one(items, places);
    }
}

impl Apps {
    /// None is known.
    pub fn new(alloc: Global) -> Apps
        ensures { result ≡ [] }
    {
        Apps {
            items: Vec::new(alloc),
            places: Places::new(alloc),
        }
    }

    /// The applications in order.
    pub fn as_slice(&self) -> &[App]
        ensures { result.now ≡ self.now }
    {
        &self.items
    }

    /// Where the application with this name stands.
    fn place(&self, name: &str) -> Option<usize>
        ensures { result ≡ position (is_named name.now) self.now }
    {
        self.places.find(name)
    }

    /// The application with this name.
    pub fn found(&self, name: &str) -> Option<&App>
        ensures { option_copied result ≡ takes.found_in name.now self.now }
    {
        match self.place(name) {
            Some(place) => Some(&self.items[place]),
            None => None,
        }
    }

    /// Whether an application with this name is known.
    pub fn has(&self, name: &str) -> bool
        ensures { result ≡ list_any (is_named name.now) self.now }
    {
        self.place(name).is_some()
    }

    /// An application becomes known. After want of memory all is as before.
    pub fn push(&mut self, app: App) -> Result<(), NoMemory>
        requires is_new { list_any (is_named app.name) self.old ≡ false }
        ensures ok { OnOk result (self.new ≡ self.old ++ app ∷ []) }
        ensures err { OnErr result (self.new ≡ self.old) }
    {
        self.items.reserve(1)?;
        self.places.put(app.name().as_str(), self.items.len())?;
        match self.items.push(app) {
            Ok(()) => Ok(()),
            Err(_) => unreachable!(),
        }
    }

    /// Only the first so many stay known.
    pub fn truncate(&mut self, count: usize)
        ensures { self.new ≡ take count self.old }
    {
        cut(&mut self.items, &mut self.places, count);
    }

    /// The application with this name is forgotten.
    pub fn forget(&mut self, name: &str)
        ensures { self.new ≡ filter (λ app. not (is_named name.now app)) self.old }
    {
        if let Some(place) = self.place(name) {
            self.items.retain(|app| !app.is(name));
            self.places.remove(name);
            self.places.move_up(place);
        }
    }

    /// The serial of a message of the application with this name is noted.
    pub fn note(&mut self, name: &str, serial: u32)
        ensures { self.new ≡ changed (takes.noted serial) name.now self.old }
    {
        if let Some(place) = self.place(name) {
            self.items[place].note(serial);
        }
    }

    /// Another one with the same name stands in place of an application.
    pub fn put(&mut self, app: App)
        ensures { self.new ≡ changed (λ _. app) app.name self.old }
    {
        match self.place(app.name().as_str()) {
            Some(place) => drop(mem::replace(&mut self.items[place], app)),
            None => drop(app),
        }
    }

    /// A news changes the view of the application with this name, where it is held. After want of memory all is as
    /// before.
    pub fn fold(&mut self, name: &str, news: News) -> Result<(), NoMemory>
        ensures ok { OnOk result (self.new ≡ changed (takes.folded news) name.now self.old) }
        ensures err { OnErr result (self.new ≡ self.old) }
    {
        match self.place(name) {
            Some(place) => self.items[place].fold(news),
            None => {
                drop(news);
                Ok(())
            }
        }
    }

    /// A part of a row of the application with this name was told. After want of memory all is as before.
    pub fn tell(&mut self, name: &str, news: News) -> Result<(), NoMemory>
        ensures ok { OnOk result (self.new ≡ changed (replied.told_part news) name.now self.old) }
        ensures err { OnErr result (self.new ≡ self.old) }
    {
        match self.place(name) {
            Some(place) => self.items[place].tell(news),
            None => {
                drop(news);
                Ok(())
            }
        }
    }

    /// A part of a row of the application with this name was refused. After want of memory all is as before.
    pub fn refuse(&mut self, name: &str, path: Path, part: PartName) -> Result<(), NoMemory>
        ensures ok { OnOk result (self.new ≡ changed (replied.refused_part path part) name.now self.old) }
        ensures err { OnErr result (self.new ≡ self.old) }
    {
        match self.place(name) {
            Some(place) => self.items[place].refuse(path, part),
            None => {
                drop(path);
                Ok(())
            }
        }
    }

    /// What is wanted first, if the plan for the application with this name is done.
    pub fn wish(&self, alloc: Global, name: &str, plan: Plan) -> Result<Option<Question>, NoMemory>
        ensures { IfOk result (λ wish. wish ≡ first (wishes (flat_map (one_planned plan.entry name.now) self.now))) }
    {
        first_planned(alloc, &self.items, name, plan)
    }
}
