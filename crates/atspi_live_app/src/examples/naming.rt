//! Why a line is not done.

ghost use Rattle.std.specs.Prelude.{None, Some};
ghost use Rattle.atspi_protocol.specs.exporting.Exporter.{Exporter};
ghost use Rattle.atspi_live_app.specs.Live.{IsUndone, SpentBy};
ghost use Rattle.atspi_live_app.specs.Standing.{MayNot, RefusedBy};
ghost use Rattle.atspi_live_app.specs.declared.asking.Ask.{Ask};
ghost use Rattle.atspi_live_app.specs.declared.asking.Ask.TheVariants as asks;
ghost use Rattle.atspi_live_app.specs.declared.doing.Undone.TheVariants as undone;

use atspi_tree_model::EditFault;

/// What a line asks for may not stand there, or an edit of it is refused, or the numbers of messages are spent. Where
/// memory is wanting nothing is said of it.
pub fn meanings_of_reasons()
    ensures may_not { (what : Ask) → MayNot None what → IsUndone undone.Form None what }
    ensures may { IsUndone undone.Form None asks.Nothing → ⊥ }
    ensures refused { (s : Exporter) (what : Ask) → RefusedBy (Some s) what EditFault.Cycle
        → IsUndone (undone.Refused EditFault.Cycle) (Some s) what }
    ensures not_refused { (s : Exporter) (what : Ask) → (RefusedBy (Some s) what EditFault.Cycle → ⊥)
        → IsUndone (undone.Refused EditFault.Cycle) (Some s) what → ⊥ }
    ensures spent { (s : Exporter) (what : Ask) → SpentBy (Some s) what → IsUndone undone.Spent (Some s) what }
    ensures not_spent { IsUndone undone.Spent None asks.Nothing → ⊥ }
    ensures wanting { IsUndone undone.NoMemory None asks.Nothing }
{}
