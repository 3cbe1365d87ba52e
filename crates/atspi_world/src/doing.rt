//! What users do: edits, calls and swaps of faces.

ghost use Rattle.std.specs.Prelude.{◌≡◌, ◌<◌, map, None, Some, IsErrOf, OnOk};
ghost use Rattle.atspi_tree_model.specs.Edits.{IsEdit};
ghost use Rattle.atspi_reader_calls.specs.Deeds.{MayBeAsked};
ghost use Rattle.atspi_script_lines.specs.declared.line.Party.TheVariants as parties;
ghost use Rattle.atspi_trace.specs.World.{End};
ghost use Rattle.atspi_trace.specs.Ends.{app_count, conn_of, end_at};
ghost use Rattle.atspi_trace.specs.Causes.{calls, edits, swaps_face};
ghost use Rattle.atspi_trace.specs.play.Playing.{Playing};
ghost use Rattle.atspi_trace.specs.play.Plays.{plays};
ghost use Rattle.atspi_trace.specs.Work.{name_of};
ghost use Rattle.atspi_world_parties.specs.Asked.{EditIsRefused};
ghost use Rattle.atspi_world_parties.specs.Refusals.{refusal_of};
ghost use Rattle.atspi_world_parties.specs.declared.refusing.Refusal.{Refusal};
ghost use Rattle.atspi_world.specs.Halts.{IsSpentBy};
ghost use Rattle.atspi_world.specs.Refusals.{CallAtIsRefused};
ghost use Rattle.atspi_world.specs.Stage.{IsExchanged, IsStage, posts_of, apps_of, readers_of, spares_of};
ghost use Rattle.atspi_world.specs.Worlds.{staged, Happens, IsPlaying};

use crate::fault::ActFault;
use crate::stage::Stage;
use atspi_base::NoMemory;
use atspi_script_lines::Deed;
use atspi_tree_model::Edit;
use atspi_world_ends::{Application, Follower};
use atspi_world_parties::{Refusal, call_at, edit_at, swap_at, tell_app_at, tell_reader_at};

impl<A: Application, R: Follower> Stage<A, R> {
    /// An application makes an edit of its user. Refused by the edit's first refusal, and then nothing was done.
    pub(crate) fn edit(&mut self, conn: u32, app: u32, edit: &Edit) -> Result<(), ActFault>
        requires edit { IsEdit edit.now }
        requires stage { IsStage A.is_app R.is_follower A.is_kit A.is_spare self.old }
        ensures stage { IsStage A.is_app R.is_follower A.is_kit A.is_spare self.new }
        ensures does { OnOk result
            ((p : Playing) → IsPlaying p (staged A.exporter R.follower self.old)
            → conn_of p.world.ends (parties.App app) ≡ Some conn
            → Happens (plays p (edits conn edit.now)) (staged A.exporter R.follower self.old)
            (staged A.exporter R.follower self.new)) }
        ensures accepts { OnOk result (EditIsRefused None (map A.exporter (apps_of self.old)) app edit.now) }
        ensures refused { (why : Refusal) → IsErrOf result (ActFault.Refused why)
            → EditIsRefused (Some (refusal_of why)) (map A.exporter (apps_of self.old)) app edit.now }
        ensures nothing { (why : Refusal) → IsErrOf result (ActFault.Refused why)
            → staged A.exporter R.follower self.new ≡ staged A.exporter R.follower self.old }
        ensures allowed { IsErrOf result ActFault.Spent
            → EditIsRefused None (map A.exporter (apps_of self.old)) app edit.now }
        ensures spent { IsErrOf result ActFault.Spent → (p : Playing)
            → IsPlaying p (staged A.exporter R.follower self.old) → conn_of p.world.ends (parties.App app) ≡ Some conn
            → IsSpentBy (plays p (edits conn edit.now)) (staged A.exporter R.follower self.old)
            (staged A.exporter R.follower self.new) }
        ensures calm { IsErrOf result ActFault.RegistryLost → ⊥ }
    {
        edit_at(self.carrier.alloc, &mut self.cast.apps, app, edit)?;
        tell_app_at(
            &mut self.cast.apps,
            app,
            &mut self.carrier.posts,
            conn,
            &mut self.carrier.trace,
        )?;
        Ok(())
    }

    /// A reader sends a call of its user to a node of the application at a connection. Refused where the application is
    /// not held, and then nothing was done.
    pub(crate) fn call(
        &mut self,
        conn: u32,
        reader: u32,
        callee: u32,
        node: u32,
        deed: &Deed,
    ) -> Result<(), ActFault>
        requires deed { MayBeAsked deed.now }
        requires stage { IsStage A.is_app R.is_follower A.is_kit A.is_spare self.old }
        ensures stage { IsStage A.is_app R.is_follower A.is_kit A.is_spare self.new }
        ensures does { OnOk result
            ((p : Playing) (e : End) → IsPlaying p (staged A.exporter R.follower self.old)
            → conn_of p.world.ends (parties.Reader reader) ≡ Some conn → end_at p.world.ends callee ≡ Some e
            → Happens (plays p (calls conn (name_of (Some e)) node deed.now)) (staged A.exporter R.follower self.old)
            (staged A.exporter R.follower self.new)) }
        ensures accepts { OnOk result
            (CallAtIsRefused None (map R.follower (readers_of self.old)) reader (posts_of self.old) callee) }
        ensures refused { (why : Refusal) → IsErrOf result (ActFault.Refused why)
            → CallAtIsRefused (Some (refusal_of why)) (map R.follower (readers_of self.old)) reader (posts_of self.old)
            callee }
        ensures nothing { (why : Refusal) → IsErrOf result (ActFault.Refused why)
            → staged A.exporter R.follower self.new ≡ staged A.exporter R.follower self.old }
        ensures allowed { IsErrOf result ActFault.Spent
            → CallAtIsRefused None (map R.follower (readers_of self.old)) reader (posts_of self.old) callee }
        ensures spent { IsErrOf result ActFault.Spent → (p : Playing) (e : End)
            → IsPlaying p (staged A.exporter R.follower self.old)
            → conn_of p.world.ends (parties.Reader reader) ≡ Some conn → end_at p.world.ends callee ≡ Some e
            → IsSpentBy (plays p (calls conn (name_of (Some e)) node deed.now)) (staged A.exporter R.follower self.old)
            (staged A.exporter R.follower self.new) }
        ensures calm { IsErrOf result ActFault.RegistryLost → ⊥ }
    {
        let place = callee as usize;
        if place >= self.carrier.posts.len() {
            return Ok(());
        }
        call_at(
            &mut self.cast.readers,
            reader,
            &self.carrier.posts[place],
            node,
            deed,
        )?;
        tell_reader_at(
            &mut self.cast.readers,
            reader,
            &mut self.carrier.posts,
            conn,
            &mut self.carrier.trace,
        )?;
        Ok(())
    }

    /// An application's texts go into the next spare, if one is left, and lie there then.
    pub(crate) fn swap(&mut self, app: u32) -> Result<(), NoMemory>
        requires stage { IsStage A.is_app R.is_follower A.is_kit A.is_spare self.old }
        ensures stage { IsStage A.is_app R.is_follower A.is_kit A.is_spare self.new }
        ensures does { OnOk result
            ((p : Playing) → IsPlaying p (staged A.exporter R.follower self.old) → p.world.swaps < 16
            → 0 < app_count p.world.ends
            → Happens (plays p swaps_face) (staged A.exporter R.follower self.old)
            (staged A.exporter R.follower self.new)) }
        ensures exchanged { OnOk result
            (IsExchanged A.texts A.number app (apps_of self.old) (apps_of self.new) (spares_of self.old)
            (spares_of self.new)) }
    {
        match self.spares.pop() {
            Some(spare) => swap_at(self.carrier.alloc, &mut self.cast.apps, app, spare),
            None => Ok(()),
        }
    }
}
