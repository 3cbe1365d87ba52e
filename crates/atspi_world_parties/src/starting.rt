//! New ends: that one starts is told, and it is started and stands behind the others of its kind.

ghost use Rattle.std.specs.Prelude.{◌≡◌, ◌++◌, ◌∷◌, [], map, All, IfOk, IsErrOf, OnOk};
ghost use Rattle.std.specs.Option.{option_copied};
ghost use Rattle.atspi_tree_model.specs.Row.{IsName};
ghost use Rattle.atspi_protocol.specs.exporting.Exporter as exporting;
ghost use Rattle.atspi_protocol.specs.exporting.Starting as starting;
ghost use Rattle.atspi_protocol.specs.following.ReaderState as following;
ghost use Rattle.atspi_protocol.specs.following.Takes as takes;
ghost use Rattle.atspi_trace.specs.Entry.{entries_of, started};

use atspi_base::{NoMemory, Text};
use atspi_protocol::ends::EndFault;
use atspi_script_lines::Party;
use atspi_trace_events::Event;
use atspi_world_ends::{Application, Follower};
use atspi_world_links::note;
use std::alloc::Global;

/// An equal text, if there is one.
fn copied(alloc: Global, text: Option<&Text>) -> Result<Option<Text>, NoMemory>
    ensures { IfOk result (λ copy. copy ≡ option_copied text.entry) }
{
    match text {
        Some(text) => Ok(Some(text.copy(alloc)?)),
        None => Ok(None),
    }
}

/// That an end starts is told, of an application with the name of its root. After want of memory nothing is known of
/// the trace.
pub fn tell_start(
    alloc: Global,
    trace: &mut Vec<Event>,
    who: Party,
    name: Option<&Text>,
) -> Result<(), NoMemory>
    ensures told { OnOk result
        (entries_of trace.new.items ≡ entries_of trace.old.items ++ started who (option_copied name.entry) ∷ []) }
{
    let name = copied(alloc, name)?;
    note(trace, Event::Start { who, name })?;
    Ok(())
}

/// A new application over a kit, started.
fn started_app<A: Application>(alloc: Global, name: &Text, kit: A::Kit) -> Result<A, EndFault>
    requires name { IsName name.now }
    requires kit { A.is_kit kit }
    ensures app { IfOk result (λ app. A.is_app app) }
    ensures starts { IfOk result (λ app. A.exporter app ≡ starting.starts (exporting.begins name.now)) }
    ensures calm { IsErrOf result EndFault.Spent → ⊥ }
{
    let mut app = A::new(alloc, name.copy(alloc)?, kit)?;
    app.start(alloc)?;
    Ok(app)
}

/// A new application over a kit, started, behind the others. It fails only for want of memory.
pub fn start_app_at<A: Application>(
    alloc: Global,
    apps: &mut Vec<A>,
    name: &Text,
    kit: A::Kit,
) -> Result<(), EndFault>
    requires name { IsName name.now }
    requires kit { A.is_kit kit }
    requires apps { All A.is_app apps.old.items }
    ensures apps { All A.is_app apps.new.items }
    ensures starts { OnOk result
        (map A.exporter apps.new.items
        ≡ map A.exporter apps.old.items ++ starting.starts (exporting.begins name.now) ∷ []) }
    ensures calm { IsErrOf result EndFault.Spent → ⊥ }
{
    let app: A = started_app(alloc, name, kit)?;
    apps.push(app)?;
    Ok(())
}

/// A new reader, started.
fn started_reader<R: Follower>(alloc: Global) -> Result<R, EndFault>
    ensures reader { IfOk result (λ reader. R.is_follower reader) }
    ensures starts { IfOk result (λ reader. R.follower reader ≡ takes.starts following.begins) }
    ensures calm { IsErrOf result EndFault.Spent → ⊥ }
{
    let mut reader = R::new(alloc)?;
    reader.start()?;
    Ok(reader)
}

/// A new reader, started, behind the others. It fails only for want of memory.
pub fn start_reader_at<R: Follower>(alloc: Global, readers: &mut Vec<R>) -> Result<(), EndFault>
    requires readers { All R.is_follower readers.old.items }
    ensures readers { All R.is_follower readers.new.items }
    ensures starts { OnOk result
        (map R.follower readers.new.items ≡ map R.follower readers.old.items ++ takes.starts following.begins ∷ []) }
    ensures calm { IsErrOf result EndFault.Spent → ⊥ }
{
    let reader: R = started_reader(alloc)?;
    readers.push(reader)?;
    Ok(())
}
