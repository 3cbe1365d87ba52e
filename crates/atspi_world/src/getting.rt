//! An end takes what comes down its link.

ghost use Rattle.std.specs.Prelude.{◌≡◌, List, Some, ◌∷◌, IfOk, IsErrOf, OnOk, slice_get};
ghost use Rattle.atspi_trace.specs.World.{here, End, Letter};
ghost use Rattle.atspi_trace.specs.Ends.{end_at};
ghost use Rattle.atspi_trace.specs.Causes.{gets};
ghost use Rattle.atspi_trace.specs.Work as work;
ghost use Rattle.atspi_trace.specs.play.Playing.{Playing};
ghost use Rattle.atspi_trace.specs.play.Plays.{plays};
ghost use Rattle.atspi_world_parties.specs.inner.Spending.{GetsSpent};
ghost use Rattle.atspi_world.specs.Halts.{IsSpentBy, WorkSpent};
ghost use Rattle.atspi_world.specs.Lines.{IsSegment};
ghost use Rattle.atspi_world.specs.Stage.{IsStage, posts_of, trace_of};
ghost use Rattle.atspi_world.specs.inner.Taken.{Gets, ends_in, stands_here};
ghost use Rattle.atspi_world.specs.Worlds.{staged, Happens, IsPlaying};

use crate::stage::Stage;
use atspi_world_ends::{Application, Follower};
use atspi_world_links::Standing;
use atspi_world_moves::CarryFault;
use atspi_world_parties::take_front;

impl<A: Application, R: Follower> Stage<A, R> {
    /// An end takes the message that is whole at it, if one is; answers whether.
    pub(crate) fn get(&mut self, conn: u32) -> Result<bool, CarryFault>
        requires stage { IsStage A.is_app R.is_follower A.is_kit A.is_spare self.old }
        ensures stage { IsStage A.is_app R.is_follower A.is_kit A.is_spare self.new }
        ensures got { IfOk result
            (λ took. Gets conn (staged A.exporter R.follower self.old) (staged A.exporter R.follower self.new) took) }
        ensures spent { IsErrOf result CarryFault.Spent
            → GetsSpent conn (posts_of self.old) self.old.carrier.at_end.items
            (ends_in (staged A.exporter R.follower self.old)) (trace_of self.old) (trace_of self.new) }
        ensures stays { IsErrOf result CarryFault.Spent → posts_of self.new ≡ posts_of self.old }
        ensures calm { IsErrOf result CarryFault.RegistryLost → ⊥ }
    {
        let place = conn as usize;
        if place >= self.carrier.posts.len() {
            return Ok(false);
        }
        if place >= self.carrier.at_end.len() {
            return Ok(false);
        }
        let taker = self.carrier.posts[place].who;
        let took = take_front(
            self.carrier.alloc,
            &mut self.carrier.at_end[place],
            &self.carrier.posts,
            taker,
            &mut self.cast,
            &mut self.carrier.trace,
        )?;
        self.cast.tell(
            taker,
            &mut self.carrier.posts,
            conn,
            &mut self.carrier.trace,
        )?;
        Ok(took)
    }

    /// Whether the end of a connection is there.
    fn is_here(&self, conn: u32) -> bool
        ensures { result ≡ stands_here (slice_get (posts_of self.now) conn) }
    {
        match self.carrier.posts.get(conn as usize) {
            Some(post) => post.standing == Standing::Here,
            None => false,
        }
    }

    /// Moves at most so many bytes of a down link; the end takes what they complete.
    pub(crate) fn move_down(&mut self, conn: u32, most: u32) -> Result<(), CarryFault>
        requires stage { IsStage A.is_app R.is_follower A.is_kit A.is_spare self.old }
        ensures stage { OnOk result (IsStage A.is_app R.is_follower A.is_kit A.is_spare self.new) }
        ensures does { OnOk result
            ((p : Playing) (e : End) → IsPlaying p (staged A.exporter R.follower self.old)
            → end_at p.world.ends conn ≡ Some e
            → IsSegment p (work.moving_down conn most) (staged A.exporter R.follower self.old)
            (staged A.exporter R.follower self.new)) }
        ensures spent { IsErrOf result CarryFault.Spent → (p : Playing) (e : End)
            → IsPlaying p (staged A.exporter R.follower self.old) → end_at p.world.ends conn ≡ Some e
            → WorkSpent p (work.moving_down conn most) (staged A.exporter R.follower self.old)
            (staged A.exporter R.follower self.new) }
        ensures calm { IsErrOf result CarryFault.RegistryLost → ⊥ }
    {
        if !self.is_here(conn) {
            return Ok(());
        }
        let mut left = most as usize;
        // each message has a byte that was not moved yet
        for _message in 0..most {
            let moved = self.carrier.fill(conn, left)?;
            left -= moved;
            if !self.get(conn)? {
                return Ok(());
            }
        }
        Ok(())
    }

    /// An end takes the first message of its down link.
    pub(crate) fn take_next(&mut self, conn: u32) -> Result<(), CarryFault>
        requires stage { IsStage A.is_app R.is_follower A.is_kit A.is_spare self.old }
        ensures stage { OnOk result (IsStage A.is_app R.is_follower A.is_kit A.is_spare self.new) }
        ensures does { OnOk result
            ((p : Playing) (e : End) (letter : Letter) (rest : List Letter)
            → IsPlaying p (staged A.exporter R.follower self.old) → end_at p.world.ends conn ≡ Some e
            → e.standing ≡ here → e.down ≡ letter ∷ rest
            → Happens (plays p (gets conn)) (staged A.exporter R.follower self.old)
            (staged A.exporter R.follower self.new)) }
        ensures spent { IsErrOf result CarryFault.Spent → (p : Playing) (e : End) (letter : Letter) (rest : List Letter)
            → IsPlaying p (staged A.exporter R.follower self.old) → end_at p.world.ends conn ≡ Some e
            → e.standing ≡ here → e.down ≡ letter ∷ rest
            → IsSpentBy (plays p (gets conn)) (staged A.exporter R.follower self.old)
            (staged A.exporter R.follower self.new) }
        ensures calm { IsErrOf result CarryFault.RegistryLost → ⊥ }
    {
        self.carrier.fill(conn, usize::MAX)?;
        self.get(conn)?;
        Ok(())
    }
}
