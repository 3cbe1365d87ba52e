//! The views of all applications that are held.

ghost use Rattle.std.specs.Prelude.{◌≡◌, chars, is_some, OnOk, OnErr, IfOk, IsSome};
ghost use Rattle.std.specs.Option.{option_copied, option_map};
ghost use Rattle.std.specs.FinMap as finmap;
ghost use Rattle.atspi_cache_arena.specs.Sights.{sights};
ghost use Rattle.atspi_tree_model.specs.News.{load, marks_reload};
ghost use Rattle.atspi_cache.specs.Cache.{folded, loaded, reloads, row_in, told};
ghost use Rattle.atspi_cache.specs.Held.{as_views, view_of};

use crate::load::load;
use crate::news::{fold, marks_reload};
use atspi_base::valid_names::{BusName, Path};
use atspi_base::{NoMemory, Text};
use atspi_cache_arena::{Arena, Rows};
use atspi_tree_model::{Item, Items, News, Row};
use std::alloc::Global;
use std::collections::BTreeMap;
use std::marker::Model;

/// What is kept of an application.
#[derive(Drop)]
struct Held {
    bus: Text,
    root: Path,
    rows: Arena,
}

/// The views of the applications that are held. The view of an application is empty where no item is its root's.
#[derive(Drop)]
pub struct Cache {
    alloc: Global,
    apps: BTreeMap<u32, Held>,
}

impl Model for Cache {
    ghost use Rattle.std.specs.Coded.{coded_ℕ};
    ghost use Rattle.std.specs.FinMap as finmap;
    ghost use Rattle.atspi_tree_model.specs.contracts.view.Row as view_row;
    ghost use Rattle.atspi_cache.specs.Cache.{Views, view_code};

    ghost Value = { Views };

    ghost coded = { finmap.code coded_ℕ (view_code view_row.the_row.coded) };

    ghost use Rattle.atspi_cache.specs.Held.{as_views};

    ghost view = { λ c. as_views c.apps };
}

/// Keeps a view in place of what was kept of its application. After want of memory all is as before.
fn put(apps: &mut BTreeMap<u32, Held>, app: u32, held: Held) -> Result<(), NoMemory>
    ensures ok { OnOk result (as_views apps.new ≡ finmap.insert (as_views apps.old) app (view_of held)) }
    ensures err { OnErr result (as_views apps.new ≡ as_views apps.old) }
{
    apps.insert(app, held)?;
    Ok(())
}

/// What is kept of an application with this bus name, this root and these items.
fn held_of(alloc: Global, name: &BusName, root: &Path, items: &[Item]) -> Result<Held, NoMemory>
    ensures { IfOk result
        (λ held. view_of held
        ≡ record { bus = chars name.now; root = root.now; rows = load root.now (chars name.now) items.now }) }
{
    let bus = Text::of(alloc, name.as_str())?;
    let path = root.copy(alloc)?;
    let rows = load(alloc, root, &bus, items)?;
    Ok(Held {
        bus,
        root: path,
        rows,
    })
}

/// Takes a news of an application, and says whether it asks for its items again.
fn take(alloc: Global, held: &mut Held, news: News) -> Result<bool, NoMemory>
    ensures reload { IfOk result (λ reload. reload ≡ marks_reload held.old.rows news) }
    ensures ok { OnOk result (view_of held.new ≡ told news (view_of held.old)) }
    ensures err { OnErr result (view_of held.new ≡ view_of held.old) }
{
    let reload = marks_reload(&held.rows, &news);
    fold(alloc, &mut held.rows, &held.root, &held.bus, news)?;
    Ok(reload)
}

impl Cache {
    /// No application is held.
    pub fn new(alloc: Global) -> Cache
        ensures { result ≡ finmap.empty }
    {
        Cache {
            alloc,
            apps: BTreeMap::new(alloc),
        }
    }

    /// Where memory is taken from.
    pub(crate) fn alloc(&self) -> Global {
        self.alloc
    }

    /// Whether an application is held.
    pub fn is_held(&self, app: u32) -> bool
        ensures { result ≡ is_some (finmap.get self.now app) }
    {
        match self.apps.get(&app) {
            Some(_) => true,
            None => false,
        }
    }

    /// The bus name of an application, none exactly where it is not held.
    pub fn bus(&self, app: u32) -> Option<&Text>
        ensures { option_copied result ≡ option_map (λ v. v.bus) (finmap.get self.now app) }
    {
        match self.apps.get(&app) {
            Some(held) => Some(&held.bus),
            None => None,
        }
    }

    /// The path of an application's root, none exactly where it is not held.
    pub fn root(&self, app: u32) -> Option<&Path>
        ensures { option_copied result ≡ option_map (λ v. v.root) (finmap.get self.now app) }
    {
        match self.apps.get(&app) {
            Some(held) => Some(&held.root),
            None => None,
        }
    }

    /// Keeps the view of a list of items in place of what was kept of the application, which is held from then on.
    /// After want of memory all is as before. Work is n log n.
    pub fn load(
        &mut self,
        app: u32,
        name: &BusName,
        root: &Path,
        items: Items,
    ) -> Result<(), NoMemory>
        ensures ok { OnOk result (self.new ≡ loaded app (chars name.now) root.now items self.old) }
        ensures err { OnErr result (self.new ≡ self.old) }
    {
        let held = held_of(self.alloc, name, root, items.as_slice());
        // (let go before what can fail)
        drop(items);
        put(&mut self.apps, app, held?)
    }

    /// Takes a news of an application that is held, and says whether it asks for its items again. After want of memory
    /// all is as before.
    pub fn fold(&mut self, app: u32, news: News) -> Result<bool, NoMemory>
        requires held { IsSome (finmap.get self.old app) }
        ensures reload { IfOk result (λ reload. reload ≡ reloads news (finmap.get self.old app)) }
        ensures ok { OnOk result (self.new ≡ folded app news self.old) }
        ensures err { OnErr result (self.new ≡ self.old) }
    {
        let alloc = self.alloc;
        match self.apps.get_mut(&app) {
            Some(held) => take(alloc, held, news),
            None => unreachable!(),
        }
    }

    /// Forgets an application, which takes no memory.
    pub fn drop_app(&mut self, app: u32)
        ensures { self.new ≡ finmap.remove self.old app }
    {
        let _ = self.apps.remove(&app);
    }

    /// The row of a path, none exactly where the application is not held or has no such row. Takes no memory.
    pub fn find(&self, app: u32, path: &Path) -> Option<&Row>
        ensures { option_copied result ≡ row_in path.now (finmap.get self.now app) }
    {
        match self.apps.get(&app) {
            Some(held) => held.rows.find(path),
            None => None,
        }
    }

    /// The rows of an application in preorder, none exactly where it is not held. Takes no memory.
    pub fn rows(&self, app: u32) -> Option<Rows>
        ensures { result ≡ option_map (λ v. sights v.rows) (finmap.get self.now app) }
    {
        match self.apps.get(&app) {
            Some(held) => Some(held.rows.rows()),
            None => None,
        }
    }
}
