//! Doing the lines of a script.

ghost use Rattle.std.specs.Prelude.{◌≡◌, ◌++◌, false, None, Some, length, IsErrOf, OnOk};
ghost use Rattle.std.specs.Option.{option_map};
ghost use Rattle.atspi_tree_model.specs.Edits.{IsEdit};
ghost use Rattle.atspi_reader_calls.specs.Deeds.{MayBeAsked};
ghost use Rattle.atspi_script_lines.specs.declared.line.Line.TheVariants as lines;
ghost use Rattle.atspi_trace.specs.Causes.{exits};
ghost use Rattle.atspi_trace.specs.World.{End, World};
ghost use Rattle.atspi_trace.specs.play.Playing.{Playing};
ghost use Rattle.atspi_script_lines.specs.declared.line.Party.TheVariants as parties;
ghost use Rattle.atspi_trace.specs.Ends.{end_at, same_party};
ghost use Rattle.atspi_trace.specs.Work as work;
ghost use Rattle.atspi_world_moves.specs.GivenUp.{OnGivingUp};
ghost use Rattle.atspi_world_moves.specs.inner.GivenUp.{UnlessGivenUp};
ghost use Rattle.atspi_trace.specs.play.Played as playing;
ghost use Rattle.atspi_world_parties.specs.Refusals.{HasName, IsOf, first_refusal, refusal_of};
ghost use Rattle.atspi_world_parties.specs.declared.refusing.Refusal.{Refusal};
ghost use Rattle.atspi_world.specs.Halts.{LineLost, LineLostElse, LineSpent, LineSpentElse, WorkLost, WorkSpent};
ghost use Rattle.atspi_world.specs.Lines.{CausedAt, IsSegment, LineDone, LineDoneElse, WorkOf, WorkOfElse};
ghost use Rattle.atspi_world.specs.MayAct.{MayAct};
ghost use Rattle.atspi_world.specs.Refusals.{RefusedElse, RefusedFor, Refuses};
ghost use Rattle.atspi_world.specs.Stage.{gives_line_up, IsStage, UnlessHalted, trace_of, posts_of, apps_of};
ghost use Rattle.atspi_world.specs.Stage.{readers_of};
ghost use Rattle.atspi_world.specs.Worlds.{staged, IsPlaying};

use crate::fault::ActFault;
use crate::stage::Stage;
use atspi_base::NoMemory;
use atspi_script_lines::{Deed, Line, Party};
use atspi_trace_events::Event;
use atspi_tree_model::Edit;
use atspi_world_ends::{Application, Follower};
use atspi_world_links::{Standing, apart, put_behind};
use atspi_world_moves::CarryFault;
use atspi_world_parties::{Refusal, conn_of, why_refused};

/// What a line told apart is put behind what was told before. Where the line failed for want of memory or for what no
/// script comes to, and where memory is wanting here, nothing of it is told.
fn rejoin(
    trace: &mut Vec<Event>,
    before: Vec<Event>,
    done: Result<(), ActFault>,
) -> Result<(), ActFault>
    ensures told { UnlessGivenUp gives_line_up result
        ((result ≡ done) × (trace.new.items ≡ before.items ++ trace.old.items)) }
    ensures err { OnGivingUp gives_line_up result (trace.new.items ≡ before.items) }
{
    match done {
        Err(ActFault::NoMemory) => {
            *trace = before;
            Err(ActFault::NoMemory)
        }
        Err(ActFault::Unsendable) => {
            *trace = before;
            Err(ActFault::Unsendable)
        }
        _ => match put_behind(trace, before) {
            Ok(()) => done,
            Err(_) => Err(ActFault::NoMemory),
        },
    }
}

impl<A: Application, R: Follower> Stage<A, R> {
    /// Why a line is refused, none where it is not, or only by the edit or the call that it asks for.
    fn refusal(&self, line: &Line) -> Option<Refusal>
        ensures name { result ≡ None → HasName line.now }
        ensures exact { (w : World)
            → IsOf w (posts_of self.now) (length (apps_of self.now)) (length (readers_of self.now))
            (length self.now.spares.items)
            → option_map refusal_of result ≡ first_refusal w line.now }
    {
        why_refused(
            self.carrier.posts.as_slice(),
            self.cast.apps.len(),
            self.cast.readers.len(),
            self.spares.len(),
            line,
        )
    }

    /// An application is asked for an edit.
    fn ask_edit(&mut self, app: u32, edit: &Edit) -> Result<(), ActFault>
        requires edit { IsEdit edit.now }
        requires stage { IsStage A.is_app R.is_follower A.is_kit A.is_spare self.old }
        ensures stage { IsStage A.is_app R.is_follower A.is_kit A.is_spare self.new }
        ensures does { OnOk result
            (LineDoneElse (lines.Edit app edit.now) (staged A.exporter R.follower self.old)
            (staged A.exporter R.follower self.new)) }
        ensures refused { (why : Refusal) → IsErrOf result (ActFault.Refused why)
            → RefusedElse (lines.Edit app edit.now) why (staged A.exporter R.follower self.old) }
        ensures nothing { (why : Refusal) → IsErrOf result (ActFault.Refused why)
            → staged A.exporter R.follower self.new ≡ staged A.exporter R.follower self.old }
        ensures spent { IsErrOf result ActFault.Spent
            → LineSpentElse (lines.Edit app edit.now) (staged A.exporter R.follower self.old)
            (staged A.exporter R.follower self.new) }
        ensures calm { IsErrOf result ActFault.RegistryLost → ⊥ }
    {
        match conn_of(&self.carrier.posts, Party::App(app)) {
            Some(conn) => self.edit(conn, app, edit),
            None => Ok(()),
        }
    }

    /// A reader is asked for a call.
    fn ask_call(&mut self, reader: u32, app: u32, node: u32, deed: &Deed) -> Result<(), ActFault>
        requires deed { MayBeAsked deed.now }
        requires stage { IsStage A.is_app R.is_follower A.is_kit A.is_spare self.old }
        ensures stage { IsStage A.is_app R.is_follower A.is_kit A.is_spare self.new }
        ensures does { OnOk result
            (LineDoneElse (lines.Call reader app node deed.now) (staged A.exporter R.follower self.old)
            (staged A.exporter R.follower self.new)) }
        ensures refused { (why : Refusal) → IsErrOf result (ActFault.Refused why)
            → RefusedElse (lines.Call reader app node deed.now) why (staged A.exporter R.follower self.old) }
        ensures nothing { (why : Refusal) → IsErrOf result (ActFault.Refused why)
            → staged A.exporter R.follower self.new ≡ staged A.exporter R.follower self.old }
        ensures spent { IsErrOf result ActFault.Spent
            → LineSpentElse (lines.Call reader app node deed.now) (staged A.exporter R.follower self.old)
            (staged A.exporter R.follower self.new) }
        ensures calm { IsErrOf result ActFault.RegistryLost → ⊥ }
    {
        let Some(conn) = conn_of(&self.carrier.posts, Party::Reader(reader)) else {
            return Ok(());
        };
        let Some(callee) = conn_of(&self.carrier.posts, Party::App(app)) else {
            return Ok(());
        };
        self.call(conn, reader, callee, node, deed)
    }

    /// A party stops.
    fn exit_of(&mut self, who: Party) -> Result<(), NoMemory>
        requires end { same_party who parties.Registry ≡ false }
        requires stage { IsStage A.is_app R.is_follower A.is_kit A.is_spare self.old }
        ensures stage { IsStage A.is_app R.is_follower A.is_kit A.is_spare self.new }
        ensures does { OnOk result
            (CausedAt who exits (staged A.exporter R.follower self.old) (staged A.exporter R.follower self.new)) }
    {
        match conn_of(&self.carrier.posts, who) {
            Some(conn) => self.carrier.exit(conn),
            None => Ok(()),
        }
    }

    /// A reader shows what it holds of an application.
    fn show_of(&mut self, reader: u32, app: u32) -> Result<(), NoMemory>
        requires stage { IsStage A.is_app R.is_follower A.is_kit A.is_spare self.old }
        ensures stage { IsStage A.is_app R.is_follower A.is_kit A.is_spare self.new }
        ensures does { OnOk result
            (WorkOf (lines.Show reader app) (staged A.exporter R.follower self.old)
            (staged A.exporter R.follower self.new)) }
    {
        match conn_of(&self.carrier.posts, Party::App(app)) {
            Some(conn) => self.show(reader, app, conn),
            None => Ok(()),
        }
    }

    /// Moves at most so many bytes of a link to the bus; any move also an end that stopped.
    fn move_up(&mut self, conn: u32, count: u32) -> Result<(), CarryFault>
        requires stage { IsStage A.is_app R.is_follower A.is_kit A.is_spare self.old }
        ensures stage { OnOk result (IsStage A.is_app R.is_follower A.is_kit A.is_spare self.new) }
        ensures does { OnOk result
            ((p : Playing) (e : End) → IsPlaying p (staged A.exporter R.follower self.old)
            → end_at p.world.ends conn ≡ Some e
            → IsSegment p (work.moving_up conn count) (staged A.exporter R.follower self.old)
            (staged A.exporter R.follower self.new)) }
        ensures lost { IsErrOf result CarryFault.RegistryLost → (p : Playing) (e : End)
            → IsPlaying p (staged A.exporter R.follower self.old) → end_at p.world.ends conn ≡ Some e
            → WorkLost p (work.moving_up conn count) (staged A.exporter R.follower self.old)
            (staged A.exporter R.follower self.new) }
        ensures spent { IsErrOf result CarryFault.Spent → (p : Playing) (e : End)
            → IsPlaying p (staged A.exporter R.follower self.old) → end_at p.world.ends conn ≡ Some e
            → WorkSpent p (work.moving_up conn count) (staged A.exporter R.follower self.old)
            (staged A.exporter R.follower self.new) }
    {
        let place = conn as usize;
        if place >= self.carrier.posts.len() {
            return Ok(());
        }
        match self.carrier.posts[place].standing {
            Standing::Here => self.carrier.move_up(conn, count),
            Standing::Stopped => {
                if count == 0 {
                    return Ok(());
                }
                self.carrier.part(conn)
            }
            Standing::Away => Ok(()),
        }
    }

    /// Moves at most so many bytes of a party's link, to the bus or from it.
    fn move_bytes(&mut self, who: Party, up: bool, count: u32) -> Result<(), CarryFault>
        requires stage { IsStage A.is_app R.is_follower A.is_kit A.is_spare self.old }
        ensures stage { OnOk result (IsStage A.is_app R.is_follower A.is_kit A.is_spare self.new) }
        ensures does { OnOk result
            (WorkOf (lines.Bytes who up count) (staged A.exporter R.follower self.old)
            (staged A.exporter R.follower self.new)) }
        ensures lost { IsErrOf result CarryFault.RegistryLost
            → LineLostElse (lines.Bytes who up count) (staged A.exporter R.follower self.old)
            (staged A.exporter R.follower self.new) }
        ensures spent { IsErrOf result CarryFault.Spent
            → LineSpentElse (lines.Bytes who up count) (staged A.exporter R.follower self.old)
            (staged A.exporter R.follower self.new) }
    {
        let Some(conn) = conn_of(&self.carrier.posts, who) else {
            return Ok(());
        };
        if up {
            return self.move_up(conn, count);
        }
        self.move_down(conn, count)
    }

    /// Does a line that is not refused, and asks for no edit and no call.
    fn do_line(&mut self, line: &Line) -> Result<(), CarryFault>
        requires may { MayAct line.now }
        requires name { HasName line.now }
        requires stage { IsStage A.is_app R.is_follower A.is_kit A.is_spare self.old }
        ensures stage { OnOk result (IsStage A.is_app R.is_follower A.is_kit A.is_spare self.new) }
        ensures does { OnOk result
            (WorkOfElse line.now (staged A.exporter R.follower self.old) (staged A.exporter R.follower self.new)) }
        ensures lost { IsErrOf result CarryFault.RegistryLost
            → LineLostElse line.now (staged A.exporter R.follower self.old) (staged A.exporter R.follower self.new) }
        ensures spent { IsErrOf result CarryFault.Spent
            → LineSpentElse line.now (staged A.exporter R.follower self.old) (staged A.exporter R.follower self.new) }
    {
        match line {
            Line::Quota(quota) => self.renew(*quota),
            Line::App(name) => self.start_app(name),
            Line::Reader => self.start_reader(),
            Line::Swap(app) => Ok(self.swap(*app)?),
            Line::Exit(app) => Ok(self.exit_of(Party::App(*app))?),
            Line::Leave(reader) => Ok(self.exit_of(Party::Reader(*reader))?),
            Line::Bytes { party, up, count } => self.move_bytes(*party, *up, *count),
            Line::Turns(count) => self.make_turns(*count),
            Line::Drain => self.drain(),
            Line::Show { reader, app } => Ok(self.show_of(*reader, *app)?),
            Line::Blank | Line::Edit { .. } | Line::Call { .. } => Ok(()),
        }
    }

    /// Does a line that is not refused, or only by the edit or the call that it asks for.
    fn carry_out(&mut self, line: &Line) -> Result<(), ActFault>
        requires may { MayAct line.now }
        requires name { HasName line.now }
        requires stage { IsStage A.is_app R.is_follower A.is_kit A.is_spare self.old }
        ensures stage { UnlessHalted result (IsStage A.is_app R.is_follower A.is_kit A.is_spare self.new) }
        ensures does { OnOk result
            (LineDoneElse line.now (staged A.exporter R.follower self.old) (staged A.exporter R.follower self.new)) }
        ensures refused { (why : Refusal) → IsErrOf result (ActFault.Refused why)
            → RefusedElse line.now why (staged A.exporter R.follower self.old) }
        ensures nothing { (why : Refusal) → IsErrOf result (ActFault.Refused why)
            → staged A.exporter R.follower self.new ≡ staged A.exporter R.follower self.old }
        ensures lost { IsErrOf result ActFault.RegistryLost
            → LineLostElse line.now (staged A.exporter R.follower self.old) (staged A.exporter R.follower self.new) }
        ensures spent { IsErrOf result ActFault.Spent
            → LineSpentElse line.now (staged A.exporter R.follower self.old) (staged A.exporter R.follower self.new) }
    {
        match line {
            Line::Edit { app, edit } => self.ask_edit(*app, edit),
            Line::Call {
                reader,
                app,
                node,
                deed,
            } => self.ask_call(*reader, *app, *node, deed),
            _ => match self.do_line(line) {
                Ok(()) => Ok(()),
                Err(halt) => Err(ActFault::from(halt)),
            },
        }
    }

    /// Does a line, and tells it behind what the trace has. After want of memory nothing is known of the world.
    fn act_apart(&mut self, line: &Line) -> Result<(), ActFault>
        requires may { MayAct line.now }
        requires stage { IsStage A.is_app R.is_follower A.is_kit A.is_spare self.old }
        ensures stage { UnlessHalted result (IsStage A.is_app R.is_follower A.is_kit A.is_spare self.new) }
        ensures does { OnOk result
            (LineDone line.now (staged A.exporter R.follower self.old) (staged A.exporter R.follower self.new)) }
        ensures refused { (why : Refusal) → IsErrOf result (ActFault.Refused why)
            → RefusedFor line.now why (staged A.exporter R.follower self.old) }
        ensures refuses { (p : Playing) (due : work.Refusal) → IsPlaying p (staged A.exporter R.follower self.old)
            → playing.refused p line.now ≡ Some due → Refuses result due }
        ensures nothing { (why : Refusal) → IsErrOf result (ActFault.Refused why)
            → staged A.exporter R.follower self.new ≡ staged A.exporter R.follower self.old }
        ensures lost { IsErrOf result ActFault.RegistryLost
            → LineLost line.now (staged A.exporter R.follower self.old) (staged A.exporter R.follower self.new) }
        ensures spent { IsErrOf result ActFault.Spent
            → LineSpent line.now (staged A.exporter R.follower self.old) (staged A.exporter R.follower self.new) }
    {
        match self.refusal(line) {
            Some(why) => Err(ActFault::Refused(why)),
            None => self.carry_out(line),
        }
    }

    /// Does a line. Refused for the first reason that holds, and then nothing of it is done. Spent where a message of
    /// an end, or of the bus, would pass serial 4,294,967,295, and RegistryLost where the registry was dropped: the
    /// line is not refused then, a part of it was done, and of that the trace tells all, but of what spent the serials
    /// a front. After any other fault the trace is as before. Behind any but a refusal the world is not used again.
    pub fn act(&mut self, line: &Line) -> Result<(), ActFault>
        requires may { MayAct line.now }
        requires stage { IsStage A.is_app R.is_follower A.is_kit A.is_spare self.old }
        ensures stage { UnlessHalted result (IsStage A.is_app R.is_follower A.is_kit A.is_spare self.new) }
        ensures does { OnOk result
            (LineDone line.now (staged A.exporter R.follower self.old) (staged A.exporter R.follower self.new)) }
        ensures refused { (why : Refusal) → IsErrOf result (ActFault.Refused why)
            → RefusedFor line.now why (staged A.exporter R.follower self.old) }
        ensures refuses { (p : Playing) (due : work.Refusal) → IsPlaying p (staged A.exporter R.follower self.old)
            → playing.refused p line.now ≡ Some due → Refuses result due }
        ensures nothing { (why : Refusal) → IsErrOf result (ActFault.Refused why)
            → staged A.exporter R.follower self.new ≡ staged A.exporter R.follower self.old }
        ensures lost { IsErrOf result ActFault.RegistryLost
            → LineLost line.now (staged A.exporter R.follower self.old) (staged A.exporter R.follower self.new) }
        ensures spent { IsErrOf result ActFault.Spent
            → LineSpent line.now (staged A.exporter R.follower self.old) (staged A.exporter R.follower self.new) }
        ensures err { OnGivingUp gives_line_up result (trace_of self.new ≡ trace_of self.old) }
    {
        let before = apart(self.carrier.alloc, &mut self.carrier.trace);
        let done = self.act_apart(line);
        rejoin(&mut self.carrier.trace, before, done)
    }
}
