//! Why an edit has no steps, as a fault of an application.

ghost use Rattle.std.specs.Prelude.{◌≡◌};
ghost use Rattle.atspi_app.specs.inner.Faults.{of_edit};

use atspi_app_known::application::AppFault;
use atspi_tree_edits::EditRefused;

/// Why an edit has no steps, as a fault of an application.
pub(crate) fn edit_fault(fault: EditRefused) -> AppFault
    ensures { result ≡ of_edit fault }
{
    match fault {
        EditRefused::Refused(why) => AppFault::Refused(why),
        EditRefused::NoMemory => AppFault::NoMemory,
    }
}
