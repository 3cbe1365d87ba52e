//! Why a line is not done, and the names of the reasons.

ghost use Rattle.std.specs.Prelude.{◌≡◌};
ghost use Rattle.atspi_run_hit.specs.Names.{refused_name};
ghost use Rattle.atspi_run_hit.specs.inner.Seen.{undone_of};

use atspi_run_input::edit_fault_name;
use atspi_script_lines::LineFault;
use atspi_tree_model::EditFault;

/// Why a line of the input is refused.
#[derive(Clone, Copy, Debug, PartialEq, Eq)]
pub enum Refused {
    /// It has more bytes than a line may have.
    Long,
    NotUtf8,
    /// The bytes spell no line, or the line may not stand there.
    Form,
    /// What it asks for cannot be done.
    Asked(EditFault),
}

/// Why a line is not done.
#[derive(Clone, Copy, Debug, PartialEq, Eq)]
pub enum Undone {
    /// It is refused.
    Refused(Refused),
    NoMemory,
}

/// Why the lines of an input were not all done.
#[derive(Clone, Copy, Debug, PartialEq, Eq)]
pub enum Stop {
    /// A line was refused.
    Refused(Refused),
    /// The sink failed.
    Write,
    NoMemory,
}

/// Why bytes are no line.
pub(crate) fn undone_of_line(fault: LineFault) -> Undone
    ensures { result ≡ undone_of fault }
{
    match fault {
        LineFault::Long => Undone::Refused(Refused::Long),
        LineFault::NotUtf8 => Undone::Refused(Refused::NotUtf8),
        LineFault::Form => Undone::Refused(Refused::Form),
        LineFault::NoMemory => Undone::NoMemory,
    }
}

/// The name of a refusal.
pub(crate) fn refused_name(why: Refused) -> &'static str
    ensures { result.now ≡ refused_name why }
{
    match why {
        Refused::Long => "Long",
        Refused::NotUtf8 => "NotUtf8",
        Refused::Form => "Form",
        Refused::Asked(why) => edit_fault_name(why),
    }
}
