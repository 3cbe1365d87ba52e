//! An application tells of its steps those who listen.

ghost use Rattle.std.specs.Prelude.{◌≡◌, ◌∷◌, [], None, Some, codes};
ghost use Rattle.atspi_script_lines.specs.declared.line.Party.TheVariants as party;
ghost use Rattle.atspi_trace_examples.specs.traces.Cases.{due_entries, in_brief, a_step, a_message, scene, world};
ghost use Rattle.atspi_trace_examples.specs.traces.Cases.{app_state, bare_tree, with_button, holding, properties};
ghost use Rattle.atspi_trace_examples.specs.traces.Cases.{children, button};

use atspi_script_lines::Line;
use atspi_tree_model::{Edit, Step};

/// Directly behind a step stand its announcement and its echoes, as far as some pattern covers them, and no others.
pub fn signals()
    ensures heard { in_brief
        (due_entries 9
        (scene (world (app_state with_button (children ∷ [])) (holding with_button) [])
        (Line.Edit 0 (Edit.Insert 0 0 button) ∷ [])))
        ≡ a_step (Step.Add 2 0 0 button) ∷ a_message (party.App 0) (Some (codes "AddAccessible")) 8
        ∷ a_message (party.App 0) (Some (codes "ChildrenChanged")) 9 ∷ [] }
    ensures unheard { in_brief
        (due_entries 9
        (scene (world (app_state with_button (properties ∷ [])) (holding with_button) [])
        (Line.Edit 0 (Edit.Insert 0 0 button) ∷ []))) ≡ a_step (Step.Add 2 0 0 button) ∷ [] }
{}
