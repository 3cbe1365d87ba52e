//! What is wanted first once a change is done.

ghost use Rattle.std.specs.Prelude.{◌≡◌, ◌∷◌, [], filter, not, IfOk};
ghost use Rattle.atspi_protocol.specs.following.ReaderState.{is_named};
ghost use Rattle.atspi_protocol.specs.following.Wishes.{wishes};
ghost use Rattle.atspi_protocol.specs.following.Replied.{changed, refused_part};
ghost use Rattle.atspi_reader_known.specs.Wanted.{first, refusing};

use atspi_base::NoMemory;
use atspi_base::valid_names::Path;
use atspi_protocol::following::Question;
use atspi_protocol::news::PartName;
use atspi_reader_known::{App, Apps, Plan, Refused};
use std::alloc::Global;

/// The same, once these parts of an application are known or refused.
fn wish_with_parts(
    alloc: Global,
    apps: &Apps,
    name: &str,
    parts: &Refused,
) -> Result<Option<Question>, NoMemory>
    ensures { IfOk result (λ wish. wish ≡ first (wishes (changed (refusing parts.now) name.now apps.now))) }
{
    apps.wish(alloc, name, Plan::Settle(parts))
}

/// What is wanted first now.
pub(crate) fn wish_now(alloc: Global, apps: &Apps) -> Result<Option<Question>, NoMemory>
    ensures { IfOk result (λ wish. wish ≡ first (wishes apps.now)) }
{
    let none = Refused::new(alloc);
    wish_with_parts(alloc, apps, "", &none)
}

/// One part of a row.
fn one_part(alloc: Global, path: &Path, part: PartName) -> Result<Refused, NoMemory>
    ensures { IfOk result (λ parts. parts ≡ (path.now, part) ∷ []) }
{
    let path = path.copy(alloc)?;
    let mut parts = Refused::new(alloc);
    parts.push(path, part)?;
    Ok(parts)
}

/// What is wanted first once a part of a row of the application with this name is known or refused.
pub(crate) fn wish_without_part(
    alloc: Global,
    apps: &Apps,
    name: &str,
    path: &Path,
    part: PartName,
) -> Result<Option<Question>, NoMemory>
    ensures { IfOk result (λ wish. wish ≡ first (wishes (changed (refused_part path.now part) name.now apps.now))) }
{
    let parts = one_part(alloc, path, part)?;
    wish_with_parts(alloc, apps, name, &parts)
}

/// What is wanted first once another application stands in the place of the one with this name.
pub(crate) fn wish_with(
    alloc: Global,
    apps: &Apps,
    name: &str,
    app: &App,
) -> Result<Option<Question>, NoMemory>
    ensures { IfOk result (λ wish. wish ≡ first (wishes (changed (λ _. app.now) name.now apps.now))) }
{
    apps.wish(alloc, name, Plan::Put(app))
}

/// What is wanted first once the application with this name is forgotten.
pub(crate) fn wish_without(
    alloc: Global,
    apps: &Apps,
    name: &str,
) -> Result<Option<Question>, NoMemory>
    ensures { IfOk result (λ wish. wish ≡ first (wishes (filter (λ app. not (is_named name.now app)) apps.now))) }
{
    apps.wish(alloc, name, Plan::Forget)
}
