//! The names of an edit's refusals.

ghost use Rattle.std.specs.Prelude.{◌≡◌};
ghost use Rattle.atspi_run_input.specs.Names.{edit_fault_name};

use atspi_tree_model::EditFault;

/// The name of an edit's refusal.
pub fn edit_fault_name(why: EditFault) -> &'static str
    ensures { result.now ≡ edit_fault_name why }
{
    match why {
        EditFault::NoNode => "NoNode",
        EditFault::IsRoot => "IsRoot",
        EditFault::NoFace => "NoFace",
        EditFault::BadIndex => "BadIndex",
        EditFault::BadOffset => "BadOffset",
        EditFault::Cycle => "Cycle",
        EditFault::Full => "Full",
        EditFault::TextFull => "TextFull",
    }
}
