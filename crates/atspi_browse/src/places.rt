//! Where each reader stands in each text, whatever happens.

ghost use Rattle.std.specs.Prelude.{◌≡◌, ◌<◌, ◌^◌, ℕ, [], Some, IfOk, OnOk};
ghost use Rattle.atspi_script_lines.specs.declared.line.Party.TheVariants.{Reader};
ghost use Rattle.atspi_trace_events.specs.declared.event.Event.TheVariants.{Sent, Got};
ghost use Rattle.atspi_cursors.specs.Cursors.{cursor_at};
ghost use Rattle.atspi_browse.specs.Cursor.{moved};
ghost use Rattle.atspi_browse.specs.Fits.{FitsIn};
ghost use Rattle.atspi_browse.specs.Places as places;
ghost use Rattle.atspi_browse.specs.Places.{AreBehind, Heeds, Reads, cursor_of};
ghost use Rattle.atspi_browse.specs.inner.Changes.{moment_at};
ghost use Rattle.atspi_browse.specs.inner.Moves.{Forgets, Moves, Notes, Puts};

use crate::changes::{Change, NodeChange, change_told};
use crate::line::UnitLine;
use atspi_base::{NoMemory, Text};
use atspi_cursors::{Cursors, Reading, read};
use atspi_message::Message;
use atspi_script_lines::Party;
use atspi_trace_events::Event;
use std::alloc::Global;
use std::collections::BTreeMap;

/// Where each reader stands in each text that it read, and what messages told of texts, which moves it once the reader
/// takes them.
#[derive(Drop)]
pub struct Places {
    alloc: Global,
    /// By a reader and an application.
    cursors: BTreeMap<u64, Cursors>,
    /// By an application and a serial.
    told: BTreeMap<u64, Option<NodeChange>>,
}

/// Two numbers as one.
fn key(one: u32, two: u32) -> u64
    ensures { result ≡ places.key one two }
{
    one as u64 * 4_294_967_296 + two as u64
}

/// The change is done to the cursor in its text. A cursor that no 32 bits hold is told as want of memory.
fn shift(cursors: &mut Cursors, told: NodeChange) -> Result<(), NoMemory>
    ensures { OnOk result
        ((n : ℕ) → cursor_at cursors.new n ≡ moved (cursor_at cursors.old n) (moment_at n (Some told))) }
{
    match told.change {
        Change::Inserted { at, count } => {
            let place = cursors.at(told.node);
            if at < place && place > u32::MAX - count {
                return Err(NoMemory);
            }
            cursors.inserted(told.node, at, count);
        }
        Change::Deleted { at, count } => cursors.deleted(told.node, at, count),
    }
    Ok(())
}

impl Places {
    /// Nothing happened yet.
    pub fn new(alloc: Global) -> Places
        ensures { AreBehind result [] }
    {
        Places {
            alloc,
            cursors: BTreeMap::new(alloc),
            told: BTreeMap::new(alloc),
        }
    }

    /// The cursor of a reader in the text of an application's node.
    pub fn at(&self, reader: u32, app: u32, node: u32) -> u32
        ensures { result ≡ cursor_of self.now reader app node }
    {
        match self.cursors.get(&key(reader, app)) {
            Some(cursors) => cursors.at(node),
            None => 0,
        }
    }

    /// An application sent a message.
    fn note(&mut self, app: u32, message: &Message) -> Result<(), NoMemory>
        ensures cursors { self.new.cursors ≡ self.old.cursors }
        ensures told { OnOk result (Notes self.old self.new app message.now) }
    {
        let told = change_told(message);
        match self.told.insert(key(app, message.serial), told) {
            Ok(_) => Ok(()),
            Err(_) => Err(NoMemory),
        }
    }

    /// A reader took the message of an application with this serial.
    fn take(&mut self, reader: u32, app: u32, serial: u32) -> Result<(), NoMemory>
        ensures told { self.new.told ≡ self.old.told }
        ensures small { serial < 2 ^ 32 }
        ensures moved { OnOk result (Moves self.old self.new reader app serial) }
    {
        let told = match self.told.get(&key(app, serial)) {
            Some(Some(told)) => *told,
            _ => return Ok(()),
        };
        match self.cursors.get_mut(&key(reader, app)) {
            Some(cursors) => shift(cursors, told),
            None => Ok(()),
        }
    }

    /// An application that a reader held is gone.
    fn forget(&mut self, reader: u32, app: u32)
        ensures told { self.new.told ≡ self.old.told }
        ensures forgot { Forgets self.old self.new reader app }
    {
        let _ = self.cursors.remove(&key(reader, app));
    }

    /// Puts the cursor of a reader in the text of an application's node to a place.
    fn put(&mut self, reader: u32, app: u32, node: u32, place: u32) -> Result<(), NoMemory>
        ensures told { self.new.told ≡ self.old.told }
        ensures put { OnOk result (Puts self.old self.new reader app node place) }
    {
        let at = key(reader, app);
        if let Some(cursors) = self.cursors.get_mut(&at) {
            return cursors.put(node, place);
        }
        let mut cursors = Cursors::new(self.alloc);
        cursors.put(node, place)?;
        match self.cursors.insert(at, cursors) {
            Ok(_) => Ok(()),
            Err(_) => Err(NoMemory),
        }
    }

    /// An end sent a message.
    fn heed_sent(&mut self, who: Party, message: &Message) -> Result<(), NoMemory>
        ensures { OnOk result (Heeds self.old self.new (Sent who message.now)) }
    {
        match who {
            Party::Bus => Ok(()),
            Party::Registry => Ok(()),
            Party::App(app) => self.note(app, message),
            Party::Reader(_) => Ok(()),
        }
    }

    /// A reader took the message of an end with this serial.
    fn heed_taken(&mut self, reader: u32, sender: Party, serial: u32) -> Result<(), NoMemory>
        ensures { OnOk result (Heeds self.old self.new (Got (Reader reader) sender serial)) }
    {
        match sender {
            Party::Bus => Ok(()),
            Party::Registry => Ok(()),
            Party::App(app) => self.take(reader, app, serial),
            Party::Reader(_) => Ok(()),
        }
    }

    /// An end took the message of another with this serial.
    fn heed_got(&mut self, taker: Party, sender: Party, serial: u32) -> Result<(), NoMemory>
        ensures { OnOk result (Heeds self.old self.new (Got taker sender serial)) }
    {
        match taker {
            Party::Bus => Ok(()),
            Party::Registry => Ok(()),
            Party::App(_) => Ok(()),
            Party::Reader(reader) => self.heed_taken(reader, sender, serial),
        }
    }

    /// An event happened. Cursors move where a reader takes what a message told of a text, and where the application
    /// of their text is gone.
    pub fn heed(&mut self, event: &Event) -> Result<(), NoMemory>
        ensures { OnOk result (Heeds self.old self.new event.now) }
    {
        match event {
            Event::Start { .. } => Ok(()),
            Event::Step { .. } => Ok(()),
            Event::Sent { who, message } => self.heed_sent(*who, message),
            Event::Got {
                taker,
                sender,
                serial,
            } => self.heed_got(*taker, *sender, *serial),
            Event::Hears { .. } => Ok(()),
            Event::Deaf { .. } => Ok(()),
            Event::Say { .. } => Ok(()),
            Event::Show { .. } => Ok(()),
            Event::Exit { .. } => Ok(()),
            Event::Gone { reader, app } => {
                self.forget(*reader, *app);
                Ok(())
            }
            Event::Dropped { .. } => Ok(()),
            Event::Busy(_) => Ok(()),
            Event::Quiet => Ok(()),
        }
    }

    /// What a line reads in a text: the unit at its cursor, which moves by it. None where no character is there.
    pub fn read(&mut self, line: UnitLine, text: &Text) -> Result<Option<Reading>, NoMemory>
        ensures read { IfOk result (λ reading. Reads self.old self.new line text.now reading) }
        ensures fits { IfOk result (λ reading. FitsIn reading text.now) }
    {
        let cursor = self.at(line.reader, line.app, line.node);
        let characters = text.as_str();
        if characters.len() >= u32::MAX as usize {
            return Err(NoMemory);
        }
        let reading = read(line.way, line.grain, characters, cursor);
        if let Some(unit) = reading {
            self.put(line.reader, line.app, line.node, unit.cursor)?;
        }
        Ok(reading)
    }
}
