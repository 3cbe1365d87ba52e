//! How applications become known.

ghost use Rattle.std.specs.Prelude.{◌≡◌, ◌++◌, None, Some, if◌then◌else◌, IfOk, IfSome, OnOk, OnErr};
ghost use Rattle.std.specs.List.{fold, list_any};
ghost use Rattle.atspi_base.specs.valid_names.Names.{is_unique_name};
ghost use Rattle.atspi_protocol.specs.following.ReaderState.{is_named};
ghost use Rattle.atspi_protocol.specs.following.Known.{made_known, unasked};
ghost use Rattle.atspi_reader.specs.inner.Turns.{app_in, listed, IsNewTo, StandsInFront};

use atspi_base::NoMemory;
use atspi_base::valid_names::{BusName, NameFault, Path};
use atspi_reader_known::{App, Apps};
use atspi_tree_model::Reference;
use std::alloc::Global;

/// The application with this name and this root, of which nothing was asked yet, where it is the name of a connection.
fn app_named(alloc: Global, name: BusName, root: Path) -> Option<App>
    ensures { result ≡ (if is_unique_name name then Some (unasked (record { bus = name; path = root })) else None) }
{
    if name.is_unique() {
        return Some(App::new(alloc, name, root));
    }
    None
}

/// The application that a reference names, of which nothing was asked yet, where the reference's text is the name of a
/// connection.
pub(crate) fn app_of(alloc: Global, reference: Reference) -> Result<Option<App>, NoMemory>
    ensures { IfOk result (λ app. app ≡ app_in reference) }
{
    match BusName::read(alloc, reference.bus.as_str().as_bytes()) {
        Ok(name) => Ok(app_named(alloc, name, reference.path)),
        Err(NameFault::NoMemory) => Err(NoMemory),
        Err(NameFault::Form) => Ok(None),
    }
}

/// The application that a reference makes known, where none with its name is known.
pub(crate) fn new_app(
    alloc: Global,
    apps: &Apps,
    reference: Reference,
) -> Result<Option<App>, NoMemory>
    ensures made { IfOk result (λ app. apps.now ++ listed app ≡ made_known apps.now reference) }
    ensures new { IfOk result (λ app. IfSome app (IsNewTo apps.now)) }
{
    match app_of(alloc, reference)? {
        Some(app) => Ok(if_new(apps, app)),
        None => Ok(None),
    }
}

/// An application, where none with its name is known.
fn if_new(apps: &Apps, app: App) -> Option<App>
    ensures { result ≡ (if list_any (is_named app.name) apps.now then None else Some app) }
{
    if apps.has(app.name().as_str()) {
        return None;
    }
    Some(app)
}

/// Appends an application, if there is one. After want of memory all is as before.
pub(crate) fn adopt(apps: &mut Apps, app: Option<App>) -> Result<(), NoMemory>
    requires { IfSome app (IsNewTo apps.old) }
    ensures ok { OnOk result (apps.new ≡ apps.old ++ listed app) }
    ensures err { OnErr result (apps.new ≡ apps.old) }
{
    match app {
        Some(app) => apps.push(app),
        None => Ok(()),
    }
}

/// A reference makes its application known. After want of memory all is as before.
fn make_one(alloc: Global, apps: &mut Apps, reference: Reference) -> Result<(), NoMemory>
    ensures ok { OnOk result (apps.new ≡ made_known apps.old reference) }
    ensures err { OnErr result (apps.new ≡ apps.old) }
{
    let app = new_app(alloc, apps, reference)?;
    adopt(apps, app)
}

/// Applications become known, of each reference in order. Those that were known before stay in front.
fn make_each(alloc: Global, apps: &mut Apps, told: Vec<Reference>) -> Result<(), NoMemory>
    ensures ok { OnOk result (apps.new ≡ fold made_known apps.old told.items) }
    ensures front { StandsInFront apps.old apps.new }
{
    for reference in told {
        make_one(alloc, apps, reference)?;
    }
    Ok(())
}

/// Applications become known, of each reference in order. After want of memory all is as before. Work is n log n of
/// those that are told and known.
pub(crate) fn make_known(
    alloc: Global,
    apps: &mut Apps,
    told: Vec<Reference>,
) -> Result<(), NoMemory>
    ensures ok { OnOk result (apps.new ≡ fold made_known apps.old told.items) }
    ensures err { OnErr result (apps.new ≡ apps.old) }
    ensures front { StandsInFront apps.old apps.new }
{
    let count = apps.as_slice().len();
    let made = make_each(alloc, apps, told);
    if made.is_err() {
        apps.truncate(count);
    }
    made
}
