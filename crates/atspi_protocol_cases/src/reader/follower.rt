//! A reader and what is said to it.

use crate::reader::shown::{push_event, push_held, push_number, push_rows};
use atspi_base::valid_names::BusName;
use atspi_message_cases::{bytes_of, lent};
use atspi_protocol::following::ReaderEvent;
use atspi_reader::{CallFault, Reader};
use atspi_script_lines::Deed;
use std::alloc::Global;
use std::marker::Model;

/// A reader in a dialogue. A contract sees the serial of its next message, and a proof that it is a reader.
#[derive(Drop)]
pub struct Follower {
    alloc: Global,
    reader: Reader,
}

impl Model for Follower {
    ghost use Rattle.std.specs.Prelude.{ℕ};
    ghost use Rattle.atspi_reader.specs.ReaderOf.{IsReader, reader_of};

    ghost Value = { ℕ };

    ghost view = { λ f. (reader_of f.reader).next };

    ghost invariant = { λ f. IsReader f.reader };
}

/// The name that a word is.
fn name(alloc: Global, word: &str) -> Option<BusName> {
    BusName::read(alloc, word.as_bytes()).ok()
}

/// What a user's call came to, where it was refused.
fn refusal(done: Result<(), CallFault>) -> &'static str {
    match done {
        Ok(()) => "",
        Err(CallFault::NotHeld) => "NotHeld",
        Err(CallFault::Spent) => "Spent",
        Err(CallFault::NoMemory) => "NoMemory",
    }
}

/// Appends what a reader did, which is let go.
fn tell(text: &mut String, alloc: Global, event: ReaderEvent) -> bool {
    push_event(text, alloc, &event).is_some()
}

impl Follower {
    /// A reader that has not started.
    pub fn new(alloc: Global) -> Option<Follower> {
        match Reader::new(alloc) {
            Ok(reader) => Some(Follower { alloc, reader }),
            Err(_) => None,
        }
    }

    /// Takes the message that bytes are. None where they are none, where the number of the reader's next message is
    /// spent, and for want of memory.
    pub fn take(&mut self, bytes: &[u8]) -> Option<()> {
        let message = lent(bytes)?;
        self.reader.take(&message).ok()
    }

    /// Lets go what the reader did first of all that was not told yet, and answers whether there was any. Takes no
    /// memory.
    pub fn let_go(&mut self) -> bool {
        self.reader.next().is_some()
    }

    /// Appends what the reader did and was not told yet, up to a thousand things.
    fn tell_all(&mut self, text: &mut String) -> Option<()> {
        for _ in 0..1000 {
            let told = match self.reader.next() {
                Some(event) => tell(text, self.alloc, event),
                None => return Some(()),
            };
            if !told {
                return None;
            }
        }
        None
    }

    /// The reader starts.
    fn start(&mut self, text: &mut String) -> Option<()> {
        self.reader.start().ok()?;
        self.tell_all(text)
    }

    /// Appends the rows of an application.
    fn rows(&self, app: &str, text: &mut String) -> Option<()> {
        let app = name(self.alloc, app)?;
        push_rows(text, self.alloc, &self.reader, &app)
    }

    /// Appends the serial of the last message taken from an application, or `none` where it is not held.
    fn last(&self, app: &str, text: &mut String) -> Option<()> {
        let app = name(self.alloc, app)?;
        match self.reader.last(&app) {
            Some(serial) => push_number(text, self.alloc, i64::from(serial)),
            None => text.push_str("none").ok(),
        }
    }

    /// Why a user's call that all children of a node be selected was refused.
    fn ask(&mut self, app: &str, node: u32) -> Option<&'static str> {
        let app = name(self.alloc, app)?;
        Some(refusal(self.reader.call(&app, node, &Deed::SelectAll)))
    }

    /// A user asks that all children of a node be selected.
    fn call(&mut self, words: &str, text: &mut String) -> Option<()> {
        let (app, node) = words.split_once(' ')?;
        let refused = self.ask(app, node.parse::<u32>().ok()?)?;
        if refused.is_empty() {
            return self.tell_all(text);
        }
        text.push_str(refused).ok()
    }

    /// Takes the message that bytes are. Where memory was wanting all is as before, so it is taken once more then.
    fn hear(&mut self, bytes: &[u8], text: &mut String) -> Option<()> {
        if self.take(bytes).is_none() {
            self.take(bytes)?;
        }
        self.tell_all(text)
    }

    /// Takes a message in words.
    fn takes(&mut self, words: &str, text: &mut String) -> Option<()> {
        let bytes = bytes_of(self.alloc, words)?;
        self.hear(bytes.as_slice(), text)
    }

    /// Appends to an empty text what comes of a line: `start`, `rows NAME`, `held`, `last NAME`, `select NAME NODE`, or
    /// a message in words.
    pub(crate) fn does(&mut self, line: &str, text: &mut String) -> Option<()> {
        let (word, rest) = line.split_once(' ').unwrap_or((line, ""));
        match word {
            "start" => self.start(text),
            "rows" => self.rows(rest, text),
            "held" => push_held(text, &self.reader),
            "last" => self.last(rest, text),
            "select" => self.call(rest, text),
            _ => self.takes(line, text),
        }
    }

    /// Does what a line says, and lets go what comes of it.
    pub(crate) fn passes(&mut self, line: &str) -> Option<()> {
        let mut text = String::new(self.alloc);
        self.does(line, &mut text)
    }
}
