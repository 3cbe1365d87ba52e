//! What an application sends, as bytes.

use crate::conversation::done;
use atspi_app::{AppEvent, Application};
use atspi_world_links::Link;
use std::alloc::Global;

/// Sends what happened, where that is a message, down a link. It is let go.
fn send_event(event: AppEvent, link: &mut Link) -> bool {
    match event {
        AppEvent::Send(message) => link.send(&message).is_ok(),
        _ => true,
    }
}

/// Sends the messages that are queued down a link. Nothing is queued then.
fn send_queued<A: Application>(app: &mut A, link: &mut Link) -> Option<()>
    requires app { A.is_app app.old }
    ensures app { A.is_app app.new }
{
    for _event in 0..1_000_000 {
        let Some(event) = app.next() else {
            return Some(());
        };
        if !send_event(event, link) {
            return None;
        }
    }
    None
}

/// Does what each line of a script says, as `play` does behind its `> `, and sends what is queued then down a link.
pub fn send<A: Application>(alloc: Global, app: &mut A, script: &str, link: &mut Link) -> Option<()>
    requires app { A.is_app app.old }
    ensures app { A.is_app app.new }
{
    for line in script.lines() {
        done(alloc, app, line)?.ok()?;
        send_queued(app, link)?;
    }
    Some(())
}
