//! What ends did, put on their links and into the trace.

ghost use Rattle.std.specs.Prelude.{◌≡◌, ◌<◌, ◌++◌, ◌∷◌, [], length, OnOk, Some, map, All};
ghost use Rattle.atspi_app_known.specs.happenings.Happened.{happening_of};
ghost use Rattle.atspi_message.specs.Envelope.{envelope_of};
ghost use Rattle.atspi_world_ends.specs.Done.{done_of};
ghost use Rattle.atspi_trace.specs.Entry.{entries_of};
ghost use Rattle.atspi_trace.specs.Causes.{did};
ghost use Rattle.atspi_trace.specs.play.Playing.{silent};
ghost use Rattle.atspi_world_parties.specs.Doing.{said_on, CanBeWritten, IsRegistryTold, IsSent, IsTold, TellsAll};
ghost use Rattle.atspi_world_parties.specs.Doing.{TellsAt, TellsFirst, TellsReaderAt};
ghost use Rattle.atspi_world_parties.specs.inner.Doing.{TellsOne};
ghost use Rattle.atspi_world_parties.specs.Taken.{ends_of, Tells};

use crate::cast::Cast;
use atspi_app_known::happenings::AppEvent;
use atspi_message::Message;
use atspi_protocol::following::ReaderEvent;
use atspi_registry::Registry;
use atspi_script_lines::Party;
use atspi_trace_events::Event;
use atspi_world_ends::{Application, Follower};
use atspi_world_links::{Post, SendFault, named_app, note, send};

/// What the registry queued is sent.
fn tell_registry(
    registry: &mut Registry,
    post: &mut Post,
    trace: &mut Vec<Event>,
) -> Result<(), SendFault>
    ensures told { OnOk result
        (IsRegistryTold registry.old registry.new post.old post.new trace.old.items trace.new.items) }
{
    while let Some(message) = registry.next() {
        send(post, Party::Registry, message, trace)?;
    }
    Ok(())
}

/// An event that is no message is told.
fn tell_alone(trace: &mut Vec<Event>, event: Event) -> Result<(), SendFault>
    ensures told { OnOk result (trace.new.items ≡ trace.old.items ++ event ∷ []) }
{
    note(trace, event)?;
    Ok(())
}

/// One thing that an application did.
fn tell_event(
    event: AppEvent,
    app: u32,
    post: &mut Post,
    trace: &mut Vec<Event>,
) -> Result<(), SendFault>
    ensures post { OnOk result (post.new ≡ said_on (happening_of event) post.old) }
    ensures told { OnOk result
        (entries_of trace.new.items ≡ entries_of trace.old.items ++ did app (happening_of event) ∷ []) }
    ensures written { OnOk result (CanBeWritten (happening_of event)) }
{
    match event {
        AppEvent::Send(message) => send(post, Party::App(app), message, trace),
        AppEvent::Step(step) => tell_alone(trace, Event::Step { app, step }),
        AppEvent::Hears(listener, pattern) => tell_alone(
            trace,
            Event::Hears {
                app,
                listener,
                pattern,
            },
        ),
        AppEvent::Deaf(listener, pattern) => tell_alone(
            trace,
            Event::Deaf {
                app,
                listener,
                pattern,
            },
        ),
    }
}

/// What an application queued is told, and its messages are sent.
fn tell_app<A: Application>(
    app: &mut A,
    number: u32,
    post: &mut Post,
    trace: &mut Vec<Event>,
) -> Result<(), SendFault>
    requires app { A.is_app app.old }
    ensures app { A.is_app app.new }
    ensures told { OnOk result
        (IsTold (A.exporter app.old) (A.exporter app.new) number post.old post.new trace.old.items trace.new.items) }
{
    while let Some(event) = app.next() {
        tell_event(event, number, post, trace)?;
    }
    Ok(())
}

/// A message of a connection's end is sent, if it is there.
fn send_at(
    posts: &mut [Post],
    conn: u32,
    who: Party,
    message: Message,
    trace: &mut Vec<Event>,
) -> Result<(), SendFault>
    ensures sent { OnOk result
        (conn < length posts.old
        → IsSent who (envelope_of message) conn posts.old posts.new trace.old.items trace.new.items) }
{
    let place = conn as usize;
    if place >= posts.len() {
        return Ok(());
    }
    send(&mut posts[place], who, message, trace)
}

/// One thing that a reader did.
fn tell_deed(
    event: ReaderEvent,
    reader: u32,
    posts: &mut [Post],
    conn: u32,
    trace: &mut Vec<Event>,
) -> Result<(), SendFault>
    ensures told { OnOk result
        (TellsOne (done_of event) reader conn posts.old posts.new trace.old.items trace.new.items) }
{
    match event {
        ReaderEvent::Send(message) => {
            send_at(posts, conn, Party::Reader(reader), message, trace)
        }
        ReaderEvent::Say(name, text) => match named_app(posts, name.as_str()) {
            Some(app) => tell_alone(trace, Event::Say { reader, app, text }),
            None => Ok(()),
        },
        ReaderEvent::Gone(name) => match named_app(posts, name.as_str()) {
            Some(app) => tell_alone(trace, Event::Gone { reader, app }),
            None => Ok(()),
        },
    }
}

/// What a reader queued is told, and its messages are sent.
fn tell_reader<R: Follower>(
    reader: &mut R,
    number: u32,
    posts: &mut [Post],
    conn: u32,
    trace: &mut Vec<Event>,
) -> Result<(), SendFault>
    requires is { R.is_follower reader.old }
    ensures is { R.is_follower reader.new }
    ensures silent { OnOk result (R.follower reader.new ≡ silent (R.follower reader.old)) }
    ensures tells { OnOk result
        (TellsAll (R.follower reader.old) number conn posts.old posts.new trace.old.items trace.new.items) }
{
    while let Some(event) = reader.next() {
        tell_deed(event, number, posts, conn, trace)?;
    }
    Ok(())
}

/// What the registry did is told.
pub fn tell_first(
    registry: &mut Registry,
    posts: &mut [Post],
    trace: &mut Vec<Event>,
) -> Result<(), SendFault>
    ensures told { OnOk result
        (TellsFirst registry.old registry.new posts.old posts.new trace.old.items trace.new.items) }
{
    if posts.len() == 0 {
        return Ok(());
    }
    tell_registry(registry, &mut posts[0], trace)
}

/// What an application did is told.
pub fn tell_app_at<A: Application>(
    apps: &mut [A],
    number: u32,
    posts: &mut [Post],
    conn: u32,
    trace: &mut Vec<Event>,
) -> Result<(), SendFault>
    requires apps { All A.is_app apps.old }
    ensures apps { All A.is_app apps.new }
    ensures told { OnOk result
        (TellsAt (map A.exporter apps.old) (map A.exporter apps.new) number conn posts.old posts.new trace.old.items
        trace.new.items) }
{
    let place = number as usize;
    let at = conn as usize;
    if place >= apps.len() {
        return Ok(());
    }
    if at >= posts.len() {
        return Ok(());
    }
    tell_app(&mut apps[place], number, &mut posts[at], trace)
}

/// What a reader did is told.
pub fn tell_reader_at<R: Follower>(
    readers: &mut [R],
    number: u32,
    posts: &mut [Post],
    conn: u32,
    trace: &mut Vec<Event>,
) -> Result<(), SendFault>
    requires readers { All R.is_follower readers.old }
    ensures readers { All R.is_follower readers.new }
    ensures told { OnOk result
        (TellsReaderAt (map R.follower readers.old) (map R.follower readers.new) number conn posts.old posts.new
        trace.old.items trace.new.items) }
{
    let place = number as usize;
    if place >= readers.len() {
        return Ok(());
    }
    tell_reader(&mut readers[place], number, posts, conn, trace)
}

impl<A: Application, R: Follower> Cast<A, R> {
    /// What an end did is told.
    pub fn tell(
        &mut self,
        who: Party,
        posts: &mut [Post],
        conn: u32,
        trace: &mut Vec<Event>,
    ) -> Result<(), SendFault>
        requires apps { All A.is_app self.old.apps.items }
        requires readers { All R.is_follower self.old.readers.items }
        ensures apps { All A.is_app self.new.apps.items }
        ensures readers { All R.is_follower self.new.readers.items }
        ensures tells { OnOk result
            (Tells who conn (ends_of A.exporter R.follower self.old.registry self.old.apps.items self.old.readers.items)
            (ends_of A.exporter R.follower self.new.registry self.new.apps.items self.new.readers.items) posts.old
            posts.new trace.old.items trace.new.items) }
    {
        match who {
            Party::Bus => Ok(()),
            Party::Registry => tell_first(&mut self.registry, posts, trace),
            Party::App(number) => tell_app_at(&mut self.apps, number, posts, conn, trace),
            Party::Reader(number) => {
                tell_reader_at(&mut self.readers, number, posts, conn, trace)
            }
        }
    }
}
