//! Why a line of an input is refused, and the names of the reasons.

ghost use Rattle.std.specs.Prelude.{◌≡◌, ◌++◌, OnOk};
ghost use Rattle.atspi_live_app.specs.Names.{edit_fault_name, refused_name, refused_text};

use atspi_base::{Bytes, NoMemory, put_decimal};
use atspi_tree_model::EditFault;

/// Why a line of an input is refused.
#[derive(Clone, Copy, Debug, PartialEq, Eq)]
pub enum Refused {
    /// It has more bytes than a line may have.
    Long,
    NotUtf8,
    /// The bytes ask for nothing, or for what may not stand there.
    Form,
    /// The edit that it asks for is refused, or the name of the root is too long.
    Edit(EditFault),
}

/// The name of an edit's refusal.
fn edit_fault_name(why: EditFault) -> &'static str
    ensures { result.now ≡ edit_fault_name why }
{
    match why {
        EditFault::NoNode => "NoNode",
        EditFault::IsRoot => "IsRoot",
        EditFault::NoFace => "NoFace",
        EditFault::BadIndex => "BadIndex",
        EditFault::BadOffset => "BadOffset",
        EditFault::Cycle => "Cycle",
        EditFault::Full => "Full",
        EditFault::TextFull => "TextFull",
    }
}

/// The name of a refusal.
fn refused_name(why: Refused) -> &'static str
    ensures { result.now ≡ refused_name why }
{
    match why {
        Refused::Long => "Long",
        Refused::NotUtf8 => "NotUtf8",
        Refused::Form => "Form",
        Refused::Edit(why) => edit_fault_name(why),
    }
}

/// Appends the line of a refusal.
pub(crate) fn put_refused(number: u64, why: Refused, out: &mut Bytes) -> Result<(), NoMemory>
    ensures { OnOk result (out.new ≡ out.old ++ refused_text number why) }
{
    out.extend(b"refused ")?;
    put_decimal(number, out)?;
    out.push(b' ')?;
    out.extend(refused_name(why).as_bytes())?;
    out.push(b'\n')
}
