//! What a reader shows of an application.

ghost use Rattle.std.specs.Prelude.{◌≡◌, ℕ, map, slice_get, Some, OnOk};
ghost use Rattle.atspi_script_lines.specs.declared.line.Party.TheVariants as parties;
ghost use Rattle.atspi_trace.specs.Ends.{conn_of};
ghost use Rattle.atspi_trace.specs.Causes.{shows};
ghost use Rattle.atspi_trace.specs.play.Playing.{Playing};
ghost use Rattle.atspi_trace.specs.play.Plays.{plays};
ghost use Rattle.atspi_world_parties.specs.Places as places;
ghost use Rattle.atspi_world_parties.specs.Shown.{shown_by, row_total};
ghost use Rattle.atspi_world_parties.specs.Wires.{name_if};
ghost use Rattle.atspi_world.specs.Stage.{IsStage, posts_of, readers_of};
ghost use Rattle.atspi_world.specs.Worlds.{staged, Happens, IsPlaying};

use crate::stage::Stage;
use atspi_base::NoMemory;
use atspi_script_lines::Party;
use atspi_trace_events::Event;
use atspi_world_ends::{Application, Follower};
use atspi_world_links::note;
use atspi_world_parties::{count_at, post_of, shown_at};

impl<A: Application, R: Follower> Stage<A, R> {
    /// How many rows a reader holds of an application, 0 where it does not hold it or one of them was not started.
    /// Takes no memory.
    pub fn row_count(&self, reader: u32, app: u32) -> usize
        requires stage { IsStage A.is_app R.is_follower A.is_kit A.is_spare self.now }
        ensures { result
            ≡ row_total
            (shown_by (slice_get (map R.follower (readers_of self.now)) reader)
            (name_if (places.post_of (parties.App app) (posts_of self.now)))) }
    {
        match post_of(&self.carrier.posts, Party::App(app)) {
            Some(post) => count_at(&self.cast.readers, reader, post),
            None => 0,
        }
    }

    /// A reader shows what it holds of the application at a connection.
    pub(crate) fn show(&mut self, reader: u32, app: u32, conn: u32) -> Result<(), NoMemory>
        requires stage { IsStage A.is_app R.is_follower A.is_kit A.is_spare self.old }
        ensures stage { IsStage A.is_app R.is_follower A.is_kit A.is_spare self.new }
        ensures shows { OnOk result
            ((p : Playing) (at : ℕ) → IsPlaying p (staged A.exporter R.follower self.old)
            → conn_of p.world.ends (parties.App app) ≡ Some conn
            → conn_of p.world.ends (parties.Reader reader) ≡ Some at
            → Happens (plays p (shows at app)) (staged A.exporter R.follower self.old)
            (staged A.exporter R.follower self.new)) }
    {
        let conn = conn as usize;
        if conn >= self.carrier.posts.len() {
            return Ok(());
        }
        let rows = shown_at(
            self.carrier.alloc,
            &self.cast.readers,
            reader,
            &self.carrier.posts[conn],
        )?;
        note(&mut self.carrier.trace, Event::Show { reader, app, rows })
    }
}
