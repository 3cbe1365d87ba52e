//! What is done to an application, and what happens then.

use crate::doing::{act, take};
use atspi_app::{AppEvent, AppFault, Application};
use atspi_base::Bytes;
use atspi_script_lines::Party;
use atspi_trace_events::Event;
use atspi_trace_texts::write_event;
use std::alloc::Global;

/// The event of a trace that tells what happened at an application.
fn event_of(event: AppEvent) -> Event {
    match event {
        AppEvent::Step(step) => Event::Step { app: 0, step },
        AppEvent::Send(message) => Event::Sent {
            who: Party::App(0),
            message,
        },
        AppEvent::Hears(listener, pattern) => Event::Hears {
            app: 0,
            listener,
            pattern,
        },
        AppEvent::Deaf(listener, pattern) => Event::Deaf {
            app: 0,
            listener,
            pattern,
        },
    }
}

/// Appends the text of what happened, which is let go.
fn put_event(event: AppEvent, out: &mut Bytes) -> bool {
    let event = event_of(event);
    write_event(&event, out).is_ok()
}

/// Appends the texts of what is queued, each a line; it is no longer queued.
fn put_told<A: Application>(app: &mut A, out: &mut Bytes) -> Option<()>
    requires app { A.is_app app.old }
    ensures app { A.is_app app.new }
{
    for _event in 0..1_000_000 {
        let Some(event) = app.next() else {
            return Some(());
        };
        if !put_event(event, out) {
            return None;
        }
    }
    None
}

/// Appends a line.
fn put_line(line: &str, out: &mut Bytes) -> Option<()> {
    out.extend(line.as_bytes()).ok()?;
    out.push(b'\n').ok()
}

/// Appends why something was not done.
fn put_fault(alloc: Global, fault: AppFault, out: &mut Bytes) -> Option<()> {
    let line = format!(in alloc; "{fault}").ok()?;
    put_line(&line, out)
}

/// Appends how many nodes its tree has.
fn put_count<A: Application>(alloc: Global, app: &A, out: &mut Bytes) -> Option<()> {
    let line = format!(in alloc; "{} nodes", app.tree().len()).ok()?;
    put_line(&line, out)
}

/// What comes of a line. Where memory was wanting all is as before, so it is done once more then.
pub(crate) fn done<A: Application>(
    alloc: Global,
    app: &mut A,
    words: &str,
) -> Option<Result<(), AppFault>>
    requires app { A.is_app app.old }
    ensures app { A.is_app app.new }
{
    match act(alloc, app, words) {
        None | Some(Err(AppFault::NoMemory)) => act(alloc, app, words),
        done => done,
    }
}

/// A line, what is done then, and what happens.
fn play_line<A: Application>(alloc: Global, app: &mut A, words: &str, out: &mut Bytes) -> Option<()>
    requires app { A.is_app app.old }
    ensures app { A.is_app app.new }
{
    if words == "count" {
        return put_count(alloc, app, out);
    }
    if let Err(fault) = done(alloc, app, words)? {
        put_fault(alloc, fault, out)?;
    }
    put_told(app, out)
}

/// Plays a script with an application, and appends the conversation: each line of the script that begins with `> `, and
/// behind it the texts of what happens then, or why it was not done. What is done is `start`, `count` (of its nodes),
/// an edit as `edit a0 name 1 "x"`, or a message in words. Other lines are passed over, so that a conversation is the
/// script of itself.
pub fn play<A: Application>(alloc: Global, app: &mut A, script: &str, out: &mut Bytes) -> Option<()>
    requires app { A.is_app app.old }
    ensures app { A.is_app app.new }
{
    for line in script.lines() {
        if let Some(words) = line.strip_prefix("> ") {
            put_line(line, out)?;
            play_line(alloc, app, words, out)?;
        }
    }
    Some(())
}

/// How many things happen at the application where it takes the message that the bytes are; they are handed out.
pub fn said<A: Application>(alloc: Global, app: &mut A, bytes: &[u8]) -> Option<u32>
    requires app { A.is_app app.old }
    ensures app { A.is_app app.new }
{
    take(alloc, app, bytes)?.ok()?;
    let mut count = 0u32;
    for _event in 0..1_000_000 {
        if app.next().is_none() {
            return Some(count);
        }
        count = count.saturating_add(1);
    }
    None
}
