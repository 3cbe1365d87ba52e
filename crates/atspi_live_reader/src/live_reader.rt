//! The reader as an end that converses, with the lines that it speaks.

ghost use Rattle.std.specs.Prelude.{◌≡◌, ◌++◌, [], false, length, IfOk, OnOk};
ghost use Rattle.atspi_reader.specs.ReaderOf.{IsReader, reader_of};
ghost use Rattle.atspi_protocol.specs.following.ReaderState.{begins};
ghost use Rattle.atspi_protocol.specs.following.Takes.{starts};
ghost use Rattle.atspi_live_reader.specs.Spoken as spoken;
ghost use Rattle.atspi_live_reader.specs.Handed.{Follows};
ghost use Rattle.atspi_live_reader.specs.Shows.{last_words};

use crate::showing::put_views;
use crate::speaking::{next_message, take_rest};
use atspi_base::{Bytes, NoMemory};
use atspi_live_conversation::{BusEnd, Ending};
use atspi_message::Message;
use atspi_message_in_place::MessageRef;
use atspi_protocol::ends::EndFault;
use atspi_reader::Reader;
use std::alloc::Global;

/// A reader that has started.
#[derive(Drop)]
pub(crate) struct LiveReader {
    reader: Reader,
    /// The lines that were spoken and not written yet.
    pub(crate) lines: Bytes,
    /// Whether there was no memory for a line.
    pub(crate) starved: bool,
}

/// A reader with its first call queued.
pub(crate) fn start(alloc: Global) -> Result<LiveReader, NoMemory>
    ensures is { IfOk result (λ l. IsReader l.reader) }
    ensures starts { IfOk result (λ l. reader_of l.reader ≡ starts begins) }
    ensures lines { IfOk result (λ l. l.lines ≡ []) }
    ensures starved { IfOk result (λ l. l.starved ≡ false) }
{
    let Ok(mut reader) = Reader::new(alloc) else {
        return Err(NoMemory);
    };
    if reader.start().is_err() {
        return Err(NoMemory);
    }
    Ok(LiveReader {
        reader,
        lines: Bytes::new(alloc),
        starved: false,
    })
}

impl LiveReader {
    /// Keeps the last words of a run that ended so, behind the lines that are kept: the lines of what was spoken and
    /// not handed out, and where the peer has ended then what is held of each application.
    pub(crate) fn conclude(&mut self, alloc: Global, ending: Ending) -> Result<(), NoMemory>
        requires { IsReader self.old.reader }
        ensures fed { OnOk result (self.old.starved ≡ false) }
        ensures lines { OnOk result (self.new.lines ≡ self.old.lines ++ last_words ending (reader_of self.old.reader)) }
    {
        take_rest(&mut self.reader, &mut self.lines, &mut self.starved);
        if self.starved {
            return Err(NoMemory);
        }
        match ending {
            Ending::PeerEnded => put_views(alloc, &self.reader, &mut self.lines),
            _ => Ok(()),
        }
    }
}

impl BusEnd for LiveReader {
    ghost Stands = { λ aside l took said. Follows aside (reader_of l.reader) l.starved l.lines took said };

    ghost IsSpent = { λ l e. spoken.IsSpent (reader_of l.reader) e };

    ghost queued = { λ l. length (reader_of l.reader).out };

    fn take(&mut self, m: &MessageRef) -> Result<(), EndFault> {
        self.reader.take(m)
    }

    fn next(&mut self) -> Option<Message> {
        next_message(&mut self.reader, &mut self.lines, &mut self.starved)
    }
}
