//! Turns: each moves the first thing that waits.

ghost use Rattle.std.specs.Prelude.{◌≡◌, ◌⊎◌, ℕ, Some, IfOk, IsErrOf, OnOk};
ghost use Rattle.atspi_trace.specs.play.Playing.{Playing};
ghost use Rattle.atspi_trace.specs.play.Plays.{plays};
ghost use Rattle.atspi_trace.specs.Causes.{Cause};
ghost use Rattle.atspi_trace.specs.Work as work;
ghost use Rattle.atspi_trace.specs.Work.{next_turn};
ghost use Rattle.atspi_world_moves.specs.inner.Waits.{turn_of};
ghost use Rattle.atspi_world.specs.Halts.{IsLostBy, IsSpentBy, ManyTurns, WorkLost, WorkSpent};
ghost use Rattle.atspi_world.specs.Lines.{IsSegment, WorkDone};
ghost use Rattle.atspi_world.specs.Stage.{IsStage};
ghost use Rattle.atspi_world.specs.inner.Turns.{TurnsMade};
ghost use Rattle.atspi_world.specs.Worlds.{staged, Happens, IsPlaying};

use crate::stage::Stage;
use atspi_trace_events::Event;
use atspi_world_ends::{Application, Follower};
use atspi_world_links::note;
use atspi_world_moves::{CarryFault, Turn};

/// How many turns a drain makes at most: more than messages can be taken, since each of 22 parties takes each message
/// of a serial at most once.
const TURN_LIMIT: u64 = 1 << 42;

impl<A: Application, R: Follower> Stage<A, R> {
    /// Moves what waits.
    fn turn(&mut self, turn: Turn) -> Result<(), CarryFault>
        requires stage { IsStage A.is_app R.is_follower A.is_kit A.is_spare self.old }
        ensures stage { OnOk result (IsStage A.is_app R.is_follower A.is_kit A.is_spare self.new) }
        ensures does { OnOk result
            ((p : Playing) (c : Cause) → IsPlaying p (staged A.exporter R.follower self.old)
            → next_turn p.world ≡ Some c → turn_of c ≡ Some turn
            → Happens (plays p c) (staged A.exporter R.follower self.old) (staged A.exporter R.follower self.new)) }
        ensures lost { IsErrOf result CarryFault.RegistryLost → (p : Playing) (c : Cause)
            → IsPlaying p (staged A.exporter R.follower self.old) → next_turn p.world ≡ Some c → turn_of c ≡ Some turn
            → IsLostBy (plays p c) (staged A.exporter R.follower self.old) (staged A.exporter R.follower self.new) }
        ensures spent { IsErrOf result CarryFault.Spent → (p : Playing) (c : Cause)
            → IsPlaying p (staged A.exporter R.follower self.old) → next_turn p.world ≡ Some c → turn_of c ≡ Some turn
            → IsSpentBy (plays p c) (staged A.exporter R.follower self.old) (staged A.exporter R.follower self.new) }
    {
        match turn {
            Turn::Route(conn) => self.carrier.route(conn),
            Turn::Part(conn) => self.carrier.part(conn),
            Turn::Get(conn) => self.take_next(conn),
        }
    }

    /// Makes so many turns, fewer where then nothing waits; answers whether something waits still.
    pub(crate) fn turns(&mut self, most: u32) -> Result<bool, CarryFault>
        requires stage { IsStage A.is_app R.is_follower A.is_kit A.is_spare self.old }
        ensures stage { OnOk result (IsStage A.is_app R.is_follower A.is_kit A.is_spare self.new) }
        ensures turned { IfOk result
            (λ more. (p : Playing) (count : ℕ) → IsPlaying p (staged A.exporter R.follower self.old)
            → TurnsMade p count most more (staged A.exporter R.follower self.old)
            (staged A.exporter R.follower self.new)) }
        ensures lost { IsErrOf result CarryFault.RegistryLost → (p : Playing) (count : ℕ)
            → IsPlaying p (staged A.exporter R.follower self.old)
            → WorkLost p (work.turning count most) (staged A.exporter R.follower self.old)
            (staged A.exporter R.follower self.new) }
        ensures spent { IsErrOf result CarryFault.Spent → (p : Playing) (count : ℕ)
            → IsPlaying p (staged A.exporter R.follower self.old)
            → WorkSpent p (work.turning count most) (staged A.exporter R.follower self.old)
            (staged A.exporter R.follower self.new) }
    {
        for _turn in 0..most {
            match self.carrier.next_turn() {
                Some(turn) => self.turn(turn)?,
                None => return Ok(false),
            }
        }
        Ok(self.carrier.next_turn().is_some())
    }

    /// So many turns at most; that something waits behind them is told.
    pub(crate) fn make_turns(&mut self, most: u32) -> Result<(), CarryFault>
        requires stage { IsStage A.is_app R.is_follower A.is_kit A.is_spare self.old }
        ensures stage { OnOk result (IsStage A.is_app R.is_follower A.is_kit A.is_spare self.new) }
        ensures does { OnOk result
            ((p : Playing) → IsPlaying p (staged A.exporter R.follower self.old)
            → IsSegment p (work.turning most most) (staged A.exporter R.follower self.old)
            (staged A.exporter R.follower self.new)) }
        ensures lost { IsErrOf result CarryFault.RegistryLost → (p : Playing)
            → IsPlaying p (staged A.exporter R.follower self.old)
            → WorkLost p (work.turning most most) (staged A.exporter R.follower self.old)
            (staged A.exporter R.follower self.new) }
        ensures spent { IsErrOf result CarryFault.Spent → (p : Playing)
            → IsPlaying p (staged A.exporter R.follower self.old)
            → WorkSpent p (work.turning most most) (staged A.exporter R.follower self.old)
            (staged A.exporter R.follower self.new) }
    {
        if !self.turns(most)? {
            return Ok(());
        }
        note(&mut self.carrier.trace, Event::Busy(most))?;
        Ok(())
    }

    /// Turns until nothing waits, which is told. Spent also where so many were made that no serial can be left.
    pub(crate) fn drain(&mut self) -> Result<(), CarryFault>
        requires stage { IsStage A.is_app R.is_follower A.is_kit A.is_spare self.old }
        ensures stage { OnOk result (IsStage A.is_app R.is_follower A.is_kit A.is_spare self.new) }
        ensures does { OnOk result
            ((p : Playing) → IsPlaying p (staged A.exporter R.follower self.old)
            → WorkDone p work.draining (staged A.exporter R.follower self.old)
            (staged A.exporter R.follower self.new)) }
        ensures lost { IsErrOf result CarryFault.RegistryLost → (p : Playing)
            → IsPlaying p (staged A.exporter R.follower self.old)
            → WorkLost p work.draining (staged A.exporter R.follower self.old) (staged A.exporter R.follower self.new) }
        ensures spent { IsErrOf result CarryFault.Spent → (p : Playing)
            → IsPlaying p (staged A.exporter R.follower self.old)
            → WorkSpent p work.draining (staged A.exporter R.follower self.old) (staged A.exporter R.follower self.new)
            ⊎ ManyTurns p (staged A.exporter R.follower self.old) (staged A.exporter R.follower self.new) }
    {
        for _turn in 0..TURN_LIMIT {
            match self.carrier.next_turn() {
                Some(turn) => self.turn(turn)?,
                None => {
                    note(&mut self.carrier.trace, Event::Quiet)?;
                    return Ok(());
                }
            }
        }
        Err(CarryFault::Spent)
    }
}
