//! A reader takes a message: what it speaks and shows.

ghost use Rattle.std.specs.Prelude.{◌≡◌, ◌∷◌, [], None, Some, codes};
ghost use Rattle.atspi_script_lines.specs.declared.line.Party.TheVariants as party;
ghost use Rattle.atspi_trace.specs.Entry.{got, spoke, showed, gone, busy};
ghost use Rattle.atspi_trace.specs.Due.{due};
ghost use Rattle.atspi_trace_examples.specs.traces.Cases.{due_entries, scene, world, app_state, with_button, renamed};
ghost use Rattle.atspi_trace_examples.specs.traces.Cases.{renaming, holding, holding_none, announcing, items_of_tree};
ghost use Rattle.atspi_trace_examples.specs.traces.Cases.{end_of_app, turns_and_show, race, race_rows, step_scene};
ghost use Rattle.atspi_trace_examples.specs.traces.Cases.{panels, reparenting, panel_rows, removing, left_panels};

/// The new name of the focused node is spoken by one who holds its application, and by no other.
pub fn speech()
    ensures held { due_entries 2
        (scene (world (app_state renamed []) (holding with_button) (announcing with_button renaming 7 ∷ []))
        (turns_and_show 1)) ≡ got (party.Reader 0) (party.App 0) 7 ∷ spoke 0 0 (codes "Save") ∷ [] }
    ensures not_held { due_entries 9
        (scene (world (app_state renamed []) holding_none (announcing with_button renaming 7 ∷ []))
        (turns_and_show 1)) ≡ got (party.Reader 0) (party.App 0) 7 ∷ showed 0 0 None ∷ [] }
{}

/// At the end of an application that it holds it tells that, and speaks one line; then it shows nothing.
pub fn ends()
    ensures held { due_entries 9
        (scene (world (app_state renamed []) (holding with_button) (end_of_app ∷ [])) (turns_and_show 1))
        ≡ got (party.Reader 0) party.Bus 30 ∷ gone 0 0 ∷ spoke 0 0 (codes "T, closed") ∷ showed 0 0 None ∷ [] }
    ensures not_held { due_entries 9
        (scene (world (app_state renamed []) holding_none (end_of_app ∷ [])) (turns_and_show 1))
        ≡ got (party.Reader 0) party.Bus 30 ∷ gone 0 0 ∷ showed 0 0 None ∷ [] }
{}

/// What is announced before the items were sent is no part of what is held: the first message shows nothing, the items
/// show the tree as it was when they were sent, and the next message the tree after its step.
pub fn the_race()
    ensures { due_entries 9 race
        ≡ got (party.Reader 0) (party.App 0) 5 ∷ busy 1 ∷ showed 0 0 None ∷ got (party.Reader 0) (party.App 0) 6
        ∷ busy 1 ∷ showed 0 0 (Some (race_rows (codes "One"))) ∷ got (party.Reader 0) (party.App 0) 7
        ∷ showed 0 0 (Some (race_rows (codes "Uno"))) ∷ [] }
{}

/// A node that moves takes what is below it along; one that is removed takes it away.
pub fn moves_and_removals()
    ensures moved { due_entries 9 (step_scene panels reparenting)
        ≡ got (party.Reader 0) (party.App 0) 7 ∷ showed 0 0 (Some panel_rows) ∷ [] }
    ensures removed { due_entries 9 (step_scene panels removing)
        ≡ got (party.Reader 0) (party.App 0) 7 ∷ showed 0 0 (Some left_panels) ∷ [] }
{}
