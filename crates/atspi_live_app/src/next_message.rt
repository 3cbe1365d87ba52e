//! What an application has queued, as messages for its link: the rest is passed.

ghost use Rattle.std.specs.Prelude.{◌≡◌, ◌<◌, [], Some, IfNone, IfSome};
ghost use Rattle.atspi_message.specs.Envelope.{envelope_of};
ghost use Rattle.atspi_app_known.specs.happenings.Happened.{happening_of};
ghost use Rattle.atspi_live_app.specs.HandedOver.{HandsOver, IsHanded};
ghost use Rattle.atspi_live_app.specs.Live.{queued_in, seen};
ghost use Rattle.atspi_live_app.specs.inner.Live.{Hands, IsStarted};
ghost use Rattle.atspi_live_app.specs.declared.next_message.Handed.{Handed};

use atspi_app::{AppEvent, Application};
use atspi_message::Message;

/// What an application has queued first.
#[derive(Drop)]
enum Handed {
    Message(Message),
    /// Nothing for the link.
    Aside,
    /// Nothing is queued.
    Nothing,
}

/// What happens, for the link.
fn handed_of(event: AppEvent) -> Handed
    ensures { IsHanded result (happening_of event) }
{
    match event {
        AppEvent::Send(message) => Handed::Message(message),
        _ => Handed::Aside,
    }
}

/// Takes what an application has queued first.
fn hand_over<A: Application>(app: &mut A) -> Handed
    requires { A.is_app app.old }
    ensures app { A.is_app app.new }
    ensures hands { HandsOver result (A.exporter app.old) (A.exporter app.new) }
    ensures nothing { result ≡ Handed.Nothing → (A.exporter app.new).out ≡ [] }
{
    match app.next() {
        Some(event) => handed_of(event),
        None => Handed::Nothing,
    }
}

/// The oldest message of an application that was not handed out. What happened before it is passed.
fn next_of<A: Application>(app: &mut A) -> Option<Message>
    requires { A.is_app app.old }
    ensures app { A.is_app app.new }
    ensures hands { Hands envelope_of result (Some (A.exporter app.old)) (Some (A.exporter app.new)) }
    ensures fewer { IfSome result (λ m. queued_in (Some (A.exporter app.new)) < queued_in (Some (A.exporter app.old))) }
    ensures empty { IfNone result (queued_in (Some (A.exporter app.new)) ≡ 0) }
{
    'events: loop {
        match hand_over(app) {
            Handed::Message(message) => return Some(message),
            Handed::Aside => {}
            Handed::Nothing => return None,
        }
    }
}

/// The same of an application that may not have started yet.
pub(crate) fn next_message<A: Application>(app: &mut Option<A>) -> Option<Message>
    requires { IsStarted A.is_app app.old }
    ensures app { IsStarted A.is_app app.new }
    ensures hands { Hands envelope_of result (seen A.exporter app.old) (seen A.exporter app.new) }
    ensures fewer { IfSome result (λ m. queued_in (seen A.exporter app.new) < queued_in (seen A.exporter app.old)) }
    ensures empty { IfNone result (queued_in (seen A.exporter app.new) ≡ 0) }
{
    match app {
        Some(app) => next_of(app),
        None => None,
    }
}
