//! Why a line is not done, and the names of the reasons.

ghost use Rattle.std.specs.Prelude.{◌≡◌, ℕ, List, Err};
ghost use Rattle.std.specs.List.{AllByRecursion};
ghost use Rattle.atspi_trace_played.specs.Turns.{IsUnspent};
ghost use Rattle.atspi_trace.specs.Entry.{entries_of};
ghost use Rattle.atspi_script_lines.specs.declared.line.Line.{Line};
ghost use Rattle.atspi_script_lines.specs.Line.{ReadsLine, Spells};
ghost use Rattle.atspi_run_replay.specs.Names.{edit_fault_name, refusal_name, refused_name};
ghost use Rattle.atspi_run_replay.specs.inner.Play.{StopsAs};
ghost use Rattle.atspi_run_replay.specs.inner.Run.{stop_of};
ghost use Rattle.atspi_world.specs.Halts.{LineLost, LineSpent};
ghost use Rattle.atspi_world.specs.Refusals.{RefusedFor};
ghost use Rattle.atspi_world.specs.Worlds.{Staged};

use atspi_script_lines::LineFault;
use atspi_tree_model::EditFault;
use atspi_world::ActFault;
use atspi_world_parties::Refusal;

/// Why a line of a script is refused.
#[derive(Clone, Copy, Debug, PartialEq, Eq)]
pub enum Refused {
    /// It has more bytes than a line may have.
    Long,
    NotUtf8,
    /// The bytes spell no line.
    Form,
    /// The world refuses the line.
    World(Refusal),
}

/// Why a world came to its end.
#[derive(Clone, Copy, Debug, PartialEq, Eq)]
pub enum Halt {
    /// The registry was dropped.
    RegistryLost,
    /// A message of an end, or of the bus, would pass serial 4,294,967,295.
    Spent,
}

/// Why the lines of a script were not all done.
#[derive(Clone, Copy, Debug, PartialEq, Eq)]
pub enum Stop {
    /// A line was refused.
    Refused(Refused),
    /// The world came to its end.
    Halted(Halt),
    /// The sink failed.
    Write,
    /// There is no memory left, or a message can not be written.
    NoMemory,
}

/// Why bytes are no line.
pub(crate) fn stop_of_line(fault: LineFault) -> Stop
    ensures { (bytes : List ℕ) (old new : Staged) → ReadsLine (Err fault) bytes → StopsAs result bytes old new }
{
    match fault {
        LineFault::Long => Stop::Refused(Refused::Long),
        LineFault::NotUtf8 => Stop::Refused(Refused::NotUtf8),
        LineFault::Form => Stop::Refused(Refused::Form),
        LineFault::NoMemory => Stop::NoMemory,
    }
}

/// Why a world did not do a line.
pub(crate) fn stop_of_act(fault: ActFault) -> Stop
    ensures value { result ≡ stop_of fault }
    ensures stops { (line : Line) (bytes : List ℕ) (old new : Staged) → Spells line bytes
        → ((why : Refusal) → fault ≡ ActFault.Refused why → RefusedFor line why old)
        → (fault ≡ ActFault.RegistryLost → LineLost line old new) → (fault ≡ ActFault.Spent → LineSpent line old new)
        → AllByRecursion IsUnspent (entries_of new.trace) → StopsAs result bytes old new }
{
    match fault {
        ActFault::Refused(why) => Stop::Refused(Refused::World(why)),
        ActFault::Spent => Stop::Halted(Halt::Spent),
        ActFault::RegistryLost => Stop::Halted(Halt::RegistryLost),
        ActFault::Unsendable => Stop::NoMemory,
        ActFault::NoMemory => Stop::NoMemory,
    }
}

/// The name of an edit's refusal.
fn edit_fault_name(why: EditFault) -> &'static str
    ensures { result.now ≡ edit_fault_name why }
{
    match why {
        EditFault::NoNode => "NoNode",
        EditFault::IsRoot => "IsRoot",
        EditFault::NoFace => "NoFace",
        EditFault::BadIndex => "BadIndex",
        EditFault::BadOffset => "BadOffset",
        EditFault::Cycle => "Cycle",
        EditFault::Full => "Full",
        EditFault::TextFull => "TextFull",
    }
}

/// The name of a world's refusal.
fn refusal_name(why: Refusal) -> &'static str
    ensures { result.now ≡ refusal_name why }
{
    match why {
        Refusal::NoParty => "NoParty",
        Refusal::Dead => "Dead",
        Refusal::NoKit => "NoKit",
        Refusal::NoReader => "NoReader",
        Refusal::NoSpare => "NoSpare",
        Refusal::Late => "Late",
        Refusal::NotHeld => "NotHeld",
        Refusal::Edit(why) => edit_fault_name(why),
    }
}

/// The name of a refusal.
pub(crate) fn refused_name(why: Refused) -> &'static str
    ensures { result.now ≡ refused_name why }
{
    match why {
        Refused::Long => "Long",
        Refused::NotUtf8 => "NotUtf8",
        Refused::Form => "Form",
        Refused::World(why) => refusal_name(why),
    }
}
