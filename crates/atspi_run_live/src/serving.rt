//! What each live command does, and with which status it ends.

ghost use Rattle.std.specs.Prelude.{◌≡◌, ◌≤◌, [], chars};
ghost use Rattle.atspi_live_conversation.specs.Reports.{Begins};
ghost use Rattle.atspi_run_check.specs.Causes.{Causes};
ghost use Rattle.atspi_run_check.specs.Complete.{NoneFailed};
ghost use Rattle.atspi_run_live.specs.Complete.{EndsWell, PeerDoes};
ghost use Rattle.atspi_run_live.specs.Words.{IsPath};
ghost use Rattle.atspi_run_live.specs.Serves.{ServesApp, ServesBus, ServesReader, ServesRegistry};
ghost use Rattle.atspi_run_live.specs.Statuses.{IsLiveStatus};
ghost use Rattle.atspi_run_live.specs.declared.words.Service.TheVariants as services;

use crate::words::{Live, Service};
use atspi_app::App;
use atspi_app_exported::Kit;
use atspi_base::{Sink, Source, Text};
use atspi_faces::{Deeds, Grid, PlainText};
use atspi_live_app::app;
use atspi_live_bus::bus;
use atspi_live_host::Host;
use atspi_live_reader::read;
use atspi_live_registry::registry;
use std::alloc::Global;

/// Serves the bus at the path.
fn serve_bus<H: Host>(alloc: Global, path: &Text, rounds: u32, host: &mut H) -> u8
    requires begins { Begins (H.calls host.old) }
    requires links { H.links host.old ≡ [] }
    ensures serves { ServesBus path.now rounds result (H.calls host.old) (H.calls host.new) (H.faults host.old)
        (H.faults host.new) }
{
    bus(alloc, path, rounds, host)
}

/// Serves an application over boxes without a node.
fn serve_app<S: Source, K: Sink, H: Host>(
    alloc: Global,
    path: &Text,
    rounds: u32,
    source: &mut S,
    sink: &mut K,
    host: &mut H,
) -> u8
    requires begins { Begins (H.calls host.old) }
    requires links { H.links host.old ≡ [] }
    ensures serves { ServesApp path.now rounds result (S.left source.old) (S.left source.new) (S.faults source.old)
        (S.faults source.new) (H.links host.new) (H.calls host.old) (H.calls host.new) (H.faults host.old)
        (H.faults host.new) (H.link_faults host.old) (H.link_faults host.new) (K.written sink.old)
        (K.written sink.new) (K.faults sink.old) (K.faults sink.new) }
    ensures later { K.faults sink.old ≤ K.faults sink.new }
    ensures source_later { S.faults source.old ≤ S.faults source.new }
{
    let Ok(chars) = Box::new(alloc, PlainText::new(alloc)) else {
        return 5;
    };
    let Ok(grid) = Box::new(alloc, Grid::new(alloc)) else {
        return 5;
    };
    let Ok(deeds) = Box::new(alloc, Deeds::new(alloc)) else {
        return 5;
    };
    let kit = Kit { chars, grid, deeds };
    app::<App, S, K, H>(alloc, path, rounds, source, sink, host, kit)
}

/// Does a live command on the socket at its path, and answers the status: those of `bus`, `registry`, `app` and `read`.
/// Memory can be wanting before, which is status 5 too, and then nothing is done.
pub fn serve<S: Source, K: Sink, H: Host>(
    alloc: Global,
    live: Live<'_>,
    source: &mut S,
    sink: &mut K,
    host: &mut H,
) -> u8
    requires path { IsPath live.path.now }
    requires begins { Begins (H.calls host.old) }
    requires links { H.links host.old ≡ [] }
    ensures bus { live.entry.service ≡ services.Bus
        → ServesBus (chars live.entry.path.now) live.entry.rounds result (H.calls host.old) (H.calls host.new)
        (H.faults host.old) (H.faults host.new) × (K.written sink.new ≡ K.written sink.old) }
    ensures registry { live.entry.service ≡ services.Registry
        → ServesRegistry (chars live.entry.path.now) live.entry.rounds result (H.links host.new) (H.calls host.new)
        (H.faults host.old) (H.faults host.new) (H.link_faults host.old) (H.link_faults host.new) (K.written sink.old)
        (K.written sink.new) (K.faults sink.old) (K.faults sink.new) }
    ensures app { live.entry.service ≡ services.App
        → ServesApp (chars live.entry.path.now) live.entry.rounds result (S.left source.old) (S.left source.new)
        (S.faults source.old) (S.faults source.new) (H.links host.new) (H.calls host.old) (H.calls host.new)
        (H.faults host.old) (H.faults host.new) (H.link_faults host.old) (H.link_faults host.new) (K.written sink.old)
        (K.written sink.new) (K.faults sink.old) (K.faults sink.new) }
    ensures read { live.entry.service ≡ services.Read
        → ServesReader (chars live.entry.path.now) live.entry.rounds result (H.links host.new) (H.calls host.new)
        (H.faults host.old) (H.faults host.new) (H.link_faults host.old) (H.link_faults host.new) (K.written sink.old)
        (K.written sink.new) (K.faults sink.old) (K.faults sink.new) }
    ensures unread { (live.entry.service ≡ services.App → ⊥) → S.left source.new ≡ S.left source.old }
    ensures known { IsLiveStatus result }
    ensures causes { Causes result (S.faults source.old) (S.faults source.new) (K.faults sink.old) (K.faults sink.new) }
    ensures complete { (live.entry.service ≡ services.Bus → ⊥) → (live.entry.service ≡ services.App → ⊥)
        → NoneFailed (K.faults sink.old) (K.faults sink.new) → NoneFailed (H.faults host.old) (H.faults host.new)
        → NoneFailed (H.link_faults host.old) (H.link_faults host.new)
        → PeerDoes (H.links host.new) live.entry.rounds (H.calls host.new) → EndsWell 0 result }
    ensures bus_complete { live.entry.service ≡ services.Bus → NoneFailed (H.faults host.old) (H.faults host.new)
        → EndsWell 8 result }
{
    let Ok(path) = Text::of(alloc, live.path) else {
        return 5;
    };
    match live.service {
        Service::Bus => serve_bus(alloc, &path, live.rounds, host),
        Service::Registry => registry(alloc, &path, live.rounds, sink, host),
        Service::App => serve_app(alloc, &path, live.rounds, source, sink, host),
        Service::Read => read(alloc, &path, live.rounds, sink, host),
    }
}
