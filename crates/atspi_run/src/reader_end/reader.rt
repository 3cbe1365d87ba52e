//! A reader's end, held by a world.

ghost use Rattle.std.specs.Prelude.{◌≡◌};
ghost use Rattle.atspi_reader.specs.ReaderOf.{IsReader, reader_of};

use atspi_base::NoMemory;
use atspi_base::valid_names::BusName;
use atspi_cache_arena::Rows;
use atspi_message_in_place::MessageRef;
use atspi_protocol::ends::EndFault;
use atspi_protocol::following::ReaderEvent;
use atspi_reader::Reader;
use atspi_script_lines::Deed;
use atspi_world_ends::{CallFault, Follower};
use std::alloc::Global;

/// A reader's end, held by a world. It is seen as the reader that it holds.
#[derive(Drop)]
pub struct StageReader {
    reader: Reader,
}

impl Follower for StageReader {
    ghost is_follower = { λ r. IsReader r.reader };

    ghost follower = { λ r. reader_of r.reader };

    fn new(alloc: Global) -> Result<StageReader, NoMemory> {
        match Reader::new(alloc) {
            Ok(reader) => Ok(StageReader { reader }),
            Err(none) => Err(none),
        }
    }

    fn start(&mut self) -> Result<(), EndFault> {
        self.reader.start()
    }

    fn take(&mut self, m: &MessageRef<'_>) -> Result<(), EndFault> {
        self.reader.take(m)
    }

    fn call(&mut self, app: &BusName, node: u32, what: &Deed) -> Result<(), CallFault> {
        self.reader.call(app, node, what)
    }

    fn next(&mut self) -> Option<ReaderEvent> {
        self.reader.next()
    }

    fn view(&self, app: &BusName) -> Option<Rows<'_>> {
        self.reader.view(app)
    }
}
