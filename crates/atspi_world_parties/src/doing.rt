//! What users do at one of the ends: edits, calls and swaps of faces.

ghost use Rattle.std.specs.Prelude.{◌≡◌, ◌<◌, length, map, slice_set, None, Some, All, IsErrOf, OnOk, OnErr};
ghost use Rattle.atspi_tree_model.specs.Edits.{IsEdit};
ghost use Rattle.atspi_reader_calls.specs.Deeds.{MayBeAsked};
ghost use Rattle.atspi_trace.specs.Work.{not_held, of_edit};
ghost use Rattle.atspi_tree_model.specs.declared.edit.EditFault.{EditFault};
ghost use Rattle.atspi_world_parties.specs.Doing.{CallsAt, EditsAt};
ghost use Rattle.atspi_world_parties.specs.Asked.{CallSpends, EditSpends, CallIsRefused, EditIsRefused};

use atspi_base::NoMemory;
use atspi_script_lines::Deed;
use atspi_tree_model::Edit;
use atspi_world_ends::{AppFault, Application, CallFault, Follower};
use atspi_world_links::Post;
use std::alloc::Global;

/// An application makes an edit of its user, if it is there.
pub fn edit_at<A: Application>(
    alloc: Global,
    apps: &mut [A],
    number: u32,
    edit: &Edit,
) -> Result<(), AppFault>
    requires edit { IsEdit edit.now }
    requires apps { All A.is_app apps.old }
    ensures apps { All A.is_app apps.new }
    ensures accepts { OnOk result (EditIsRefused None (map A.exporter apps.old) number edit.now) }
    ensures refused { (why : EditFault) → IsErrOf result (AppFault.Refused why)
        → EditIsRefused (Some (of_edit why)) (map A.exporter apps.old) number edit.now }
    ensures spent { IsErrOf result AppFault.Spent → EditSpends (map A.exporter apps.old) number edit.now }
    ensures err { OnErr result (map A.exporter apps.new ≡ map A.exporter apps.old) }
    ensures edited { OnOk result (EditsAt (map A.exporter apps.old) (map A.exporter apps.new) number edit.now) }
{
    let place = number as usize;
    if place >= apps.len() {
        return Ok(());
    }
    apps[place].edit(alloc, edit)
}

/// A reader sends a call of its user to a node of an application, by that application's unique name. NotHeld where it
/// has none.
pub fn call_at<R: Follower>(
    readers: &mut [R],
    number: u32,
    callee: &Post,
    node: u32,
    deed: &Deed,
) -> Result<(), CallFault>
    requires deed { MayBeAsked deed.now }
    requires readers { All R.is_follower readers.old }
    ensures readers { All R.is_follower readers.new }
    ensures accepts { OnOk result (CallIsRefused None (map R.follower readers.old) number callee.now.name) }
    ensures not_held { IsErrOf result CallFault.NotHeld
        → CallIsRefused (Some not_held) (map R.follower readers.old) number callee.now.name }
    ensures spent { IsErrOf result CallFault.Spent
        → CallSpends (map R.follower readers.old) number callee.now.name node deed.now }
    ensures err { OnErr result (map R.follower readers.new ≡ map R.follower readers.old) }
    ensures called { OnOk result
        (CallsAt (map R.follower readers.old) (map R.follower readers.new) number callee.now.name node deed.now) }
{
    let place = number as usize;
    if place >= readers.len() {
        return Ok(());
    }
    match &callee.name {
        Some(name) => readers[place].call(name, node, deed),
        None => Err(CallFault::NotHeld),
    }
}

/// The texts of an application go into a spare, if it is there, and lie there then. After want of memory all texts lie
/// where they did.
pub fn swap_at<A: Application>(
    alloc: Global,
    apps: &mut [A],
    number: u32,
    spare: A::Spare,
) -> Result<(), NoMemory>
    requires spare { A.is_spare spare }
    requires apps { All A.is_app apps.old }
    ensures apps { All A.is_app apps.new }
    ensures same { map A.exporter apps.new ≡ map A.exporter apps.old }
    ensures moved { OnOk result
        (number < length apps.old
        → map A.texts apps.new ≡ slice_set (map A.texts apps.old) number (A.number spare)) }
    ensures stay { OnErr result (map A.texts apps.new ≡ map A.texts apps.old) }
{
    let place = number as usize;
    if place >= apps.len() {
        return Ok(());
    }
    apps[place].swap_face(alloc, spare)
}
