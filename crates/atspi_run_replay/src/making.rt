//! `make`: a script is drawn from a seed and done, and what came of it is told in a line.

ghost use Rattle.std.specs.Prelude.{◌≡◌, ◌++◌, ◌-◌, ◌%◌, ◌<◌, ◌≤◌, [], ℕ, List, All, IfErr, IfOk, OnOk, count_by};
ghost use Rattle.std.specs.Prelude.{length};
ghost use Rattle.std.specs.Fmt.{decimal};
ghost use Rattle.std.specs.Io.KnownBytes.{Appends};
ghost use Rattle.atspi_base.specs.Outside.{AppendsPart};
ghost use Rattle.atspi_tree_model.specs.Edits.{IsEdit};
ghost use Rattle.atspi_script_lines.specs.declared.limits.TheConstants.{APP_COUNT};
ghost use Rattle.atspi_script_lines.specs.declared.line.Line.{Line};
ghost use Rattle.atspi_run_make.specs.Drawing.{drawn_edit};
ghost use Rattle.atspi_world.specs.Lines.{LineDone};
ghost use Rattle.atspi_world.specs.MayAct.{MayAct};
ghost use Rattle.atspi_world.specs.Stage.{IsStage, trace_of};
ghost use Rattle.atspi_world.specs.Worlds.{staged};
ghost use Rattle.atspi_trace.specs.Entry.{entries_of, entry_of};
ghost use Rattle.atspi_trace.specs.Work.{spare_count};
ghost use Rattle.atspi_run_replay.specs.Causes.{Causes};
ghost use Rattle.atspi_run_replay.specs.Made.{AreOfScript, Made};
ghost use Rattle.atspi_run_replay.specs.inner.Made.{AreSeen, HasDrawn, HasMade, HasPlayed, LinesDone};
ghost use Rattle.atspi_run_replay.specs.Made.{is_spoken, is_step, made_text, opening, tree_told};
ghost use Rattle.atspi_run_replay.specs.inner.Made.{ScriptStops, StopsAt};
ghost use Rattle.atspi_run_replay.specs.Made.{turns_behind};

use crate::naming::{Refused, Stop, stop_of_act};
use crate::replaying::stop_status;
use crate::serials::all_fit;
use atspi_base::{Bytes, NoMemory, Sink, Text, put_decimal, write_all};
use atspi_run_make::{Draws, LiveNodes, next_edit};
use atspi_script_lines::Line;
use atspi_trace_events::Event;
use atspi_tree_model::Edit;
use atspi_world::Stage;
use atspi_world_ends::{Application, Follower};
use atspi_world_parties::Refusal;
use std::alloc::Global;

/// The most edits that are made.
pub const MAKE_LIMIT: u32 = 20_000;

/// Seeds are below this.
pub const SEED_LIMIT: u32 = 2_147_483_648;

/// Behind so many edits come turns.
const ROUND: u32 = 16;

/// So many turns.
const TURNS: u32 = 64;

/// A line is done, or stops the script.
fn act<A: Application, R: Follower>(world: &mut Stage<A, R>, line: Line) -> Result<(), Stop>
    requires may { MayAct line }
    requires stage { IsStage A.is_app R.is_follower A.is_kit A.is_spare world.old }
    ensures stage { OnOk result (IsStage A.is_app R.is_follower A.is_kit A.is_spare world.new) }
    ensures done { OnOk result
        (LineDone line (staged A.exporter R.follower world.old) (staged A.exporter R.follower world.new)) }
    ensures stops { IfErr result (StopsAt line (staged A.exporter R.follower world.old)) }
{
    match world.act(&line) {
        Ok(()) => Ok(()),
        Err(fault) => {
            all_fit(world.trace());
            Err(stop_of_act(fault))
        }
    }
}

/// The application and the reader start, and know of one another.
fn begin<A: Application, R: Follower>(alloc: Global, world: &mut Stage<A, R>) -> Result<(), Stop>
    requires stage { IsStage A.is_app R.is_follower A.is_kit A.is_spare world.old }
    requires played { HasPlayed [] (staged A.exporter R.follower world.old) }
    ensures stage { OnOk result (IsStage A.is_app R.is_follower A.is_kit A.is_spare world.new) }
    ensures done { OnOk result
        (LinesDone opening (staged A.exporter R.follower world.old) (staged A.exporter R.follower world.new)) }
    ensures stops { IfErr result (λ stop. (count seed : ℕ) → ScriptStops count seed stop) }
{
    let Ok(name) = Text::of(alloc, "Made") else {
        return Err(Stop::NoMemory);
    };
    act(world, Line::App(name))?;
    act(world, Line::Reader)?;
    act(world, Line::Drain)
}

/// The edit with this number is drawn from the first application's tree. Where there is none, an edit of it would be
/// refused.
fn draw<A: Application, R: Follower>(
    alloc: Global,
    world: &Stage<A, R>,
    number: u32,
    nodes: &mut LiveNodes,
    draws: &mut Draws,
) -> Result<Edit, Stop>
    requires played { (lines : List Line) × HasPlayed lines (staged A.exporter R.follower world.now) }
    requires seen { AreSeen nodes.old.nodes.items nodes.old.next (entries_of (trace_of world.now)) }
    ensures edit { IfOk result
        (λ edit. edit ≡ (drawn_edit (tree_told (entries_of (trace_of world.now))) number draws.old.state).edit) }
    ensures state { OnOk result
        (draws.new.state ≡ (drawn_edit (tree_told (entries_of (trace_of world.now))) number draws.old.state).state) }
    ensures lawful { IfOk result (λ edit. IsEdit edit) }
    ensures seen { OnOk result (AreSeen nodes.new.nodes.items nodes.new.next (entries_of (trace_of world.now))) }
    ensures stops { IfErr result
        (StopsAt (Line.Edit 0 (drawn_edit (tree_told (entries_of (trace_of world.now))) number draws.old.state).edit)
        (staged A.exporter R.follower world.now)) }
{
    let Some(app) = world.app(0) else {
        return Err(Stop::Refused(Refused::World(Refusal::NoParty)));
    };
    let tree = app.tree();
    tree.is_lawful();
    let Ok(()) = nodes.follow(tree) else {
        return Err(Stop::NoMemory);
    };
    match next_edit(alloc, tree, nodes, number, draws) {
        Ok(edit) => Ok(edit),
        Err(_) => Err(Stop::NoMemory),
    }
}

/// Behind each sixteenth edit come turns.
fn make_turns<A: Application, R: Follower>(world: &mut Stage<A, R>, number: u32) -> Result<(), Stop>
    requires stage { IsStage A.is_app R.is_follower A.is_kit A.is_spare world.old }
    ensures stage { OnOk result (IsStage A.is_app R.is_follower A.is_kit A.is_spare world.new) }
    ensures done { OnOk result
        (LinesDone (turns_behind number) (staged A.exporter R.follower world.old)
        (staged A.exporter R.follower world.new)) }
    ensures stops { IfErr result
        (λ stop. (number % 16 ≡ 0) × StopsAt (Line.Turns 64) (staged A.exporter R.follower world.old) stop) }
{
    if number % ROUND == 0 {
        return act(world, Line::Turns(TURNS));
    }
    Ok(())
}

/// The edit with this number is drawn and made, with the turns behind it.
fn make_edit<A: Application, R: Follower>(
    alloc: Global,
    world: &mut Stage<A, R>,
    number: u32,
    nodes: &mut LiveNodes,
    draws: &mut Draws,
) -> Result<(), Stop>
    requires counted { 0 < number }
    requires stage { IsStage A.is_app R.is_follower A.is_kit A.is_spare world.old }
    requires drawn { (seed : ℕ) × HasDrawn seed (number - 1) draws.old.state (staged A.exporter R.follower world.old) }
    requires seen { AreSeen nodes.old.nodes.items nodes.old.next (entries_of (trace_of world.old)) }
    ensures stage { OnOk result (IsStage A.is_app R.is_follower A.is_kit A.is_spare world.new) }
    ensures drawn { OnOk result
        ((seed : ℕ) → HasDrawn seed (number - 1) draws.old.state (staged A.exporter R.follower world.old)
        → HasDrawn seed number draws.new.state (staged A.exporter R.follower world.new)) }
    ensures seen { OnOk result (AreSeen nodes.new.nodes.items nodes.new.next (entries_of (trace_of world.new))) }
    ensures stops { IfErr result
        (λ stop. (count seed : ℕ) → number ≤ count
        → HasDrawn seed (number - 1) draws.old.state (staged A.exporter R.follower world.old)
        → ScriptStops count seed stop) }
{
    let edit = draw(alloc, world, number, nodes, draws)?;
    act(world, Line::Edit { app: 0, edit })?;
    make_turns(world, number)
}

/// So many edits, with turns behind each sixteenth, and all that then waits.
fn make_edits<A: Application, R: Follower>(
    alloc: Global,
    world: &mut Stage<A, R>,
    count: u32,
    draws: &mut Draws,
) -> Result<(), Stop>
    requires count { count < 4294967295 }
    requires stage { IsStage A.is_app R.is_follower A.is_kit A.is_spare world.old }
    requires drawn { HasDrawn draws.old.state 0 draws.old.state (staged A.exporter R.follower world.old) }
    ensures stage { OnOk result (IsStage A.is_app R.is_follower A.is_kit A.is_spare world.new) }
    ensures made { OnOk result (HasMade draws.old.state count (staged A.exporter R.follower world.new)) }
    ensures stops { IfErr result (ScriptStops count draws.old.state) }
{
    let mut nodes = LiveNodes::new(alloc);
    for number in 1..count + 1 {
        make_edit(alloc, world, number, &mut nodes, draws)?;
    }
    act(world, Line::Drain)
}

/// Whether an event is a step of a tree.
fn is_step(event: &Event) -> bool
    ensures { result ≡ is_step (entry_of event.now) }
{
    matches!(event, Event::Step { .. })
}

/// Whether an event is a spoken line.
fn is_spoken(event: &Event) -> bool
    ensures { result ≡ is_spoken (entry_of event.now) }
{
    matches!(event, Event::Say { .. })
}

/// How many events of a trace are steps.
fn count_steps(trace: &[Event]) -> usize
    ensures { result ≡ count_by (λ event. is_step (entry_of event)) trace.now }
{
    let mut count = 0usize;
    for event in trace {
        if is_step(event) {
            count += 1;
        }
    }
    count
}

/// How many events of a trace are spoken lines.
fn count_says(trace: &[Event]) -> usize
    ensures { result ≡ count_by (λ event. is_spoken (entry_of event)) trace.now }
{
    let mut count = 0usize;
    for event in trace {
        if is_spoken(event) {
            count += 1;
        }
    }
    count
}

/// Appends a word and a number.
fn put_count(word: &[u8], count: usize, out: &mut Bytes) -> Result<(), NoMemory>
    ensures { OnOk result (out.new ≡ out.old ++ (word.now ++ decimal count)) }
{
    out.extend(word)?;
    put_decimal(count as u64, out)
}

/// What came of a script.
#[derive(Clone, Copy)]
struct Outcome {
    /// The steps that were made.
    steps: usize,
    /// The rows that the reader shows.
    nodes: usize,
    /// The lines that it spoke.
    says: usize,
}

/// What came of a script.
fn what_came<A: Application, R: Follower>(world: &Stage<A, R>) -> Outcome
    requires stage { IsStage A.is_app R.is_follower A.is_kit A.is_spare world.now }
    ensures { (seed count : ℕ) → HasMade seed count (staged A.exporter R.follower world.now)
        → AreOfScript count seed result.steps result.nodes result.says }
{
    all_fit(world.trace());
    Outcome {
        steps: count_steps(world.trace()),
        nodes: world.row_count(0, 0),
        says: count_says(world.trace()),
    }
}

/// Appends the line that tells what came of a script.
fn put_made(count: u32, seed: u32, of: Outcome, out: &mut Bytes) -> Result<(), NoMemory>
    ensures { OnOk result (out.new ≡ out.old ++ made_text count seed of.steps of.nodes of.says) }
{
    put_count(b"made ", count as usize, out)?;
    put_count(b" ", seed as usize, out)?;
    put_count(b" steps ", of.steps, out)?;
    put_count(b" nodes ", of.nodes, out)?;
    put_count(b" says ", of.says, out)?;
    out.push(b'\n')
}

/// Writes the line that tells what came of a script.
fn tell<K: Sink>(alloc: Global, count: u32, seed: u32, of: Outcome, sink: &mut K) -> u8
    requires { AreOfScript count seed of.steps of.nodes of.says }
    ensures made { Made count seed result (K.written sink.old) (K.written sink.new) }
    ensures causes { (source : ℕ) → Causes result source source (K.faults sink.old) (K.faults sink.new) }
{
    let mut text = Bytes::new(alloc);
    let Ok(()) = put_made(count, seed, of, &mut text) else {
        return 5;
    };
    match write_all(sink, text.as_slice()) {
        Ok(()) => 0,
        Err(_) => 4,
    }
}

/// Makes the edits in a world, and answers what came of them.
fn make_in<A: Application, R: Follower>(
    alloc: Global,
    world: &mut Stage<A, R>,
    count: u32,
    seed: u32,
) -> Result<Outcome, Stop>
    requires count { count < 4294967295 }
    requires seed { seed < 2147483648 }
    requires stage { IsStage A.is_app R.is_follower A.is_kit A.is_spare world.old }
    requires played { HasPlayed [] (staged A.exporter R.follower world.old) }
    ensures made { IfOk result (λ of. AreOfScript count seed of.steps of.nodes of.says) }
    ensures stops { IfErr result (ScriptStops count seed) }
{
    begin(alloc, world)?;
    let mut draws = Draws::new(seed);
    make_edits(alloc, world, count, &mut draws)?;
    Ok(what_came(world))
}

/// Makes the edits in a world over these kits and spares, and answers what came of them.
fn make_all<A: Application, R: Follower>(
    alloc: Global,
    count: u32,
    seed: u32,
    kits: Vec<A::Kit>,
    spares: Vec<A::Spare>,
) -> Result<Outcome, Stop>
    requires count { count < 4294967295 }
    requires seed { seed < 2147483648 }
    requires kits { All A.is_kit kits.items }
    requires spares { All A.is_spare spares.items }
    requires kit_count { length kits.items ≡ APP_COUNT }
    requires spare_count { length spares.items ≡ spare_count }
    ensures made { IfOk result (λ of. AreOfScript count seed of.steps of.nodes of.says) }
    ensures stops { IfErr result (ScriptStops count seed) }
{
    let made: Result<Stage<A, R>, _> = Stage::new(alloc, kits, spares);
    match made {
        Ok(mut world) => make_in(alloc, &mut world, count, seed),
        Err(_) => Err(Stop::NoMemory),
    }
}

/// Draws a script of so many edits from a seed, does it in a world over these kits and spares, and writes how many
/// steps were made, how many nodes the reader shows, and how many lines it spoke: the numbers of a lawful trace of the
/// lines. There are kits and spares for all that a script can use.
///
/// Status 0: the line was written. 4: the sink failed. With any other nothing was written. 1: the lawful trace of the
/// lines before it refuses a line of the script. 5: no memory is left. 9: the registry was dropped at its quota. 13: a
/// message would pass the last number.
pub fn make<A: Application, R: Follower, K: Sink>(
    alloc: Global,
    count: u32,
    seed: u32,
    sink: &mut K,
    kits: Vec<A::Kit>,
    spares: Vec<A::Spare>,
) -> u8
    requires count { count < 4294967295 }
    requires seed { seed < 2147483648 }
    requires kits { All A.is_kit kits.items }
    requires spares { All A.is_spare spares.items }
    requires kit_count { length kits.items ≡ APP_COUNT }
    requires spare_count { length spares.items ≡ spare_count }
    ensures made { Made count seed result (K.written sink.old) (K.written sink.new) }
    ensures causes { (source : ℕ) → Causes result source source (K.faults sink.old) (K.faults sink.new) }
{
    match make_all::<A, R>(alloc, count, seed, kits, spares) {
        Ok(of) => tell(alloc, count, seed, of, sink),
        Err(stop) => stop_status(stop),
    }
}
