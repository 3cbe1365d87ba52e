//! Whether a conversation goes as it is written.

ghost use Rattle.std.specs.Prelude.{IfSome};

use atspi_app::{App, Application, Kit};
use atspi_app_cases::{made, play};
use atspi_base::Bytes;
use atspi_faces::face::Face;
use atspi_faces::{Deeds, GapText, Grid, PlainText};
use std::alloc::Global;

/// The start of an application, which has the name `:1.5` then, whose next message has number 5, and which nobody
/// listens to.
pub(crate) const NAMED: &str = "\
> start
sent a0 call l 0 1 path=/org/freedesktop/DBus interface=org.freedesktop.DBus member=Hello destination=org.freedesktop.DBus
> return 1 bus 1 s=:1.5
sent a0 call l 0 2 path=/org/freedesktop/DBus interface=org.freedesktop.DBus member=AddMatch destination=org.freedesktop.DBus signature=s [\"type='signal',sender='org.a11y.atspi.Registry',interface='org.a11y.atspi.Registry'\"]
> return 2 bus 2
sent a0 call l 0 3 path=/org/a11y/atspi/registry interface=org.a11y.atspi.Registry member=GetRegisteredEvents destination=org.a11y.atspi.Registry
> return 3 :1.0 3 a(ss)=
sent a0 call l 0 4 path=/org/a11y/atspi/accessible/root interface=org.a11y.atspi.Socket member=Embed destination=org.a11y.atspi.Registry signature=(so) [(\":1.5\" \"/org/a11y/atspi/accessible/root\")]
> return 4 :1.0 4 (so)=org.a11y.atspi.Registry@/org/a11y/atspi/accessible/root
";

/// Whether a conversation is the script; it is shown where it is another.
fn is_script(rt: &HostRuntime, said: &Bytes, script: &str) -> bool {
    let same = said.as_slice() == script.as_bytes();
    if !same {
        let text = std::str::from_utf8(said.as_slice()).unwrap_or("no text");
        let _ = eprintln!(rt; "{text}");
    }
    same
}

/// A new application, whose root has the name `Demo`, over three empty faces.
pub(crate) fn begun(alloc: Global) -> Option<App>
    ensures { IfSome result (λ app. ⟦<App as Application>⟧.is_app app) }
{
    let chars: Box<dyn Face> = Box::new(alloc, PlainText::new(alloc)).ok()?;
    let grid: Box<dyn Face> = Box::new(alloc, Grid::new(alloc)).ok()?;
    let deeds: Box<dyn Face> = Box::new(alloc, Deeds::new(alloc)).ok()?;
    made(alloc, "Demo", Kit { chars, grid, deeds })
}

/// Whether an application says what stands in a script.
fn says<A: Application>(rt: &HostRuntime, app: &mut A, script: &str) -> bool
    requires app { A.is_app app.old }
    ensures app { A.is_app app.new }
{
    let mut said = Bytes::new(rt.alloc());
    let played = play(rt.alloc(), app, script, &mut said);
    is_script(rt, &said, script) && played.is_some()
}

/// Whether a new application says what stands in a script.
pub(crate) fn goes(rt: &HostRuntime, script: &str) -> bool {
    match begun(rt.alloc()) {
        Some(mut app) => says(rt, &mut app, script),
        None => false,
    }
}

/// The same of one whose texts go into a gap buffer at the line `= swap`.
pub(crate) fn goes_exchanged(rt: &HostRuntime, script: &str) -> bool {
    let Some((before, behind)) = script.split_once("= swap\n") else {
        return false;
    };
    let Ok(spare) = Box::new(rt.alloc(), GapText::new(rt.alloc())) else {
        return false;
    };
    match begun(rt.alloc()) {
        Some(mut app) => {
            says(rt, &mut app, before) && app.swap_face(spare).is_ok() && says(rt, &mut app, behind)
        }
        None => false,
    }
}

/// The same of an application that has started.
pub(crate) fn goes_on(rt: &HostRuntime, script: &str) -> bool {
    match format!(in rt.alloc(); "{NAMED}{script}") {
        Ok(whole) => goes(rt, &whole),
        Err(_) => false,
    }
}
