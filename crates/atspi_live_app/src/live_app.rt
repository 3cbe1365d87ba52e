//! The application as an end that converses, with the input whose lines it does.

ghost use Rattle.std.specs.Prelude.{◌≡◌, ◌≤◌, ℕ, List, [], length, IfErr, IfOk};
ghost use Rattle.atspi_message.specs.Envelope.{Envelope};
ghost use Rattle.atspi_live_conversation.specs.Talking.{MaySpeak};
ghost use Rattle.atspi_live_app.specs.Lines.{lines_of};
ghost use Rattle.atspi_live_app.specs.Live as live;
ghost use Rattle.atspi_live_app.specs.Live.{IsMarked, IsStopped, StandsAt, queued_in, seen};
ghost use Rattle.atspi_live_app.specs.inner.Live.{aside_of};
ghost use Rattle.atspi_live_app.specs.Pace.{Proceeds};
ghost use Rattle.atspi_live_app.specs.Standing as standing;
ghost use Rattle.atspi_live_app.specs.inner.Stops.{stop_of_line, stop_of_undone};

use crate::doing::{Undone, do_ask};
use crate::input::{INPUT_LIMIT, Input};
use crate::naming::Refused;
use crate::next_message::next_message;
use atspi_app::Application;
use atspi_live_conversation::BusEnd;
use atspi_message::Message;
use atspi_message_in_place::MessageRef;
use atspi_protocol::ends::EndFault;
use atspi_script_lines::LineFault;
use std::alloc::Global;

/// An application, once it has started, and its input.
#[derive(Drop)]
pub(crate) struct LiveApp<A: Application> {
    alloc: Global,
    pub(crate) app: Option<A>,
    /// What the application is made with, before it has started.
    pub(crate) kit: Option<A::Kit>,
    pub(crate) input: Input,
}

/// Why a line is not done.
#[derive(Clone, Copy, Debug, PartialEq, Eq)]
pub(crate) enum Stop {
    /// The line with this number is refused.
    Refused(u64, Refused),
    Spent,
    NoMemory,
}

/// Why a line asks for nothing, at this line.
fn stop_of_line(fault: LineFault, number: u64) -> Stop
    ensures { result ≡ stop_of_line fault number }
{
    match fault {
        LineFault::Long => Stop::Refused(number, Refused::Long),
        LineFault::NotUtf8 => Stop::Refused(number, Refused::NotUtf8),
        LineFault::Form => Stop::Refused(number, Refused::Form),
        LineFault::NoMemory => Stop::NoMemory,
    }
}

/// Why what it asks for is not done.
fn stop_of_undone(undone: Undone, number: u64) -> Stop
    ensures { result ≡ stop_of_undone undone number }
{
    match undone {
        Undone::Form => Stop::Refused(number, Refused::Form),
        Undone::Refused(why) => Stop::Refused(number, Refused::Edit(why)),
        Undone::Spent => Stop::Spent,
        Undone::NoMemory => Stop::NoMemory,
    }
}

impl<A: Application> LiveApp<A> {
    /// None has started, and these are the lines of its input.
    pub(crate) fn new(alloc: Global, text: Vec<u8>, kit: A::Kit) -> LiveApp<A>
        requires kit { A.is_kit kit }
        requires short { length text.items ≤ INPUT_LIMIT }
        ensures { StandsAt A.is_app A.exporter A.is_kit (aside_of 0 [] text.items) result.app result.kit
            result.input.text.items result.input.at result.input.number [] [] }
    {
        LiveApp {
            alloc,
            app: None,
            kit: Some(kit),
            input: Input::new(text),
        }
    }

    /// The next line is done. Answers how many rounds it takes; behind the last line one after another.
    pub(crate) fn do_next(&mut self) -> Result<u32, Stop>
        requires { MaySpeak ⟦<LiveApp<A> as BusEnd>⟧.Stands self.old }
        ensures ok { IfOk result
            (λ rounds. (text marks : List ℕ) (place : ℕ) (took said : List Envelope)
            → ⟦<LiveApp<A> as BusEnd>⟧.Stands (aside_of place marks text) self.old took said
            → (marks' : List ℕ) × Proceeds text place marks (length took) rounds self.new.input.at marks'
            × ⟦<LiveApp<A> as BusEnd>⟧.Stands (aside_of self.new.input.at marks' text) self.new took said) }
        ensures err { IfErr result
            (λ stop. (text marks : List ℕ) (place : ℕ) (took said : List Envelope)
            → ⟦<LiveApp<A> as BusEnd>⟧.Stands (aside_of place marks text) self.old took said
            → IsStopped (IsMarked marks) stop (lines_of text) took) }
    {
        match self.input.next(self.alloc) {
            Some(Ok(ask)) => match do_ask(self.alloc, ask, &mut self.app, &mut self.kit) {
                Ok(rounds) => Ok(rounds),
                Err(undone) => Err(stop_of_undone(undone, self.input.number)),
            },
            Some(Err(fault)) => Err(stop_of_line(fault, self.input.number)),
            None if self.app.is_some() => Ok(1),
            None => Err(Stop::Refused(self.input.number.saturating_add(1), Refused::Form)),
        }
    }
}

impl<A: Application> BusEnd for LiveApp<A> {
    ghost Stands = { λ aside l took said. live.StandsAt A.is_app A.exporter A.is_kit aside l.app l.kit
        l.input.text.items l.input.at l.input.number took said };

    ghost IsSpent = { λ l e. standing.IsSpent (seen A.exporter l.app) e };

    ghost queued = { λ l. queued_in (seen A.exporter l.app) };

    fn take(&mut self, m: &MessageRef) -> Result<(), EndFault> {
        match &mut self.app {
            Some(app) => app.take(self.alloc, m),
            None => Ok(()),
        }
    }

    fn next(&mut self) -> Option<Message> {
        next_message(&mut self.app)
    }
}
