//! A new application.

ghost use Rattle.std.specs.Prelude.{IfSome};
ghost use Rattle.atspi_app_exported.specs.Parts.{AreEmpty, AreKinds};

use atspi_app::{App, Application, Boxes, Kit};
use atspi_base::Text;
use std::alloc::Global;

/// An application with the root alone, whose name has at most 511 bytes, over three empty faces.
pub fn made(alloc: Global, name: &str, kit: Kit) -> Option<App>
    requires kinds { AreKinds (⟦<Kit as Boxes>⟧.kinds kit) }
    requires empty { AreEmpty (⟦<Kit as Boxes>⟧.faces kit) }
    ensures { IfSome result (λ app. ⟦<App as Application>⟧.is_app app) }
{
    if name.len() > 511 {
        return None;
    }
    let name = Text::read(alloc, name.as_bytes()).ok()?;
    if name.as_str().len() > 511 {
        return None;
    }
    match App::new(alloc, name, kit) {
        Ok(app) => Some(app),
        Err(_) => None,
    }
}
