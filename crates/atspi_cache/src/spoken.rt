//! What is spoken of the applications that are held.

ghost use Rattle.std.specs.Prelude.{◌≡◌, [], ◌∷◌, ◌++◌, Some, IsSome, IfOk, OnOk, OnErr};
ghost use Rattle.std.specs.Option.{option_copied};
ghost use Rattle.std.specs.FinMap as finmap;
ghost use Rattle.atspi_speech.specs.Looked.{AreLookedUp};
ghost use Rattle.atspi_cache.specs.Cache.{View};
ghost use Rattle.atspi_cache.specs.Spoken.{closing_in, lines_of};

use crate::cache::Cache;
use atspi_base::{NoMemory, Text, Texts};
use atspi_speech::closing_line;
use atspi_tree_model::{News, Row};

/// What a news is about in a view.
#[derive(Clone, Copy)]
struct Looked<'a> {
    /// The row of the news' own path.
    row: Option<&'a Row>,
    /// Whether there is a row of an item's parent's path.
    has_parent: bool,
}

/// Looks up what a news is about.
fn look_up<'a>(cache: &'a Cache, app: u32, news: &News) -> Looked<'a>
    ensures { (v : View) → finmap.get cache.now app ≡ Some v
        → AreLookedUp v.rows news.now (option_copied result.row) result.has_parent }
{
    let path = match news {
        News::Item(item) => {
            return Looked {
                row: cache.find(app, &item.object.path),
                has_parent: cache.find(app, &item.parent.path).is_some(),
            };
        }
        News::Name(path, _)
        | News::State(path, ..)
        | News::Inserted { path, .. }
        | News::Deleted { path, .. } => path,
        _ => {
            return Looked {
                row: None,
                has_parent: false,
            };
        }
    };
    Looked {
        row: cache.find(app, path),
        has_parent: false,
    }
}

/// Appends the lines that are spoken at a news of an application that is held, given the cache before the news. After
/// want of memory `out` is as before.
pub fn lines(cache: &Cache, app: u32, news: &News, out: &mut Texts) -> Result<(), NoMemory>
    requires held { IsSome (finmap.get cache.now app) }
    ensures ok { OnOk result (out.new ≡ out.old ++ lines_of news.now (finmap.get cache.now app)) }
    ensures err { OnErr result (out.new ≡ out.old) }
{
    let Some(bus) = cache.bus(app) else {
        unreachable!()
    };
    let Some(root) = cache.root(app) else {
        unreachable!()
    };
    let looked = look_up(cache, app, news);
    atspi_speech::lines(
        cache.alloc(),
        root,
        bus,
        looked.row,
        looked.has_parent,
        news,
        out,
    )
}

/// The line that is spoken when an application that is held is gone, asked for before it is forgotten.
pub fn closing(cache: &Cache, app: u32) -> Result<Text, NoMemory>
    requires held { IsSome (finmap.get cache.now app) }
    ensures { IfOk result (λ line. closing_in (finmap.get cache.now app) ≡ line ∷ []) }
{
    let Some(mut rows) = cache.rows(app) else {
        unreachable!()
    };
    match rows.next() {
        Some(seen) => closing_line(cache.alloc(), Some(&seen.row.name)),
        None => closing_line(cache.alloc(), None),
    }
}
