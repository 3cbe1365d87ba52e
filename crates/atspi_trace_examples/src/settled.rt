//! Worked cases of what readers ask for, and of what waits.

ghost use Rattle.std.specs.Prelude.{[], ◌∷◌, ◌++◌, take, codes};
ghost use Rattle.atspi_tree_model.specs.Path.{path_of};
ghost use Rattle.atspi_tree_model.specs.declared.step.Step.TheVariants.{Add};
ghost use Rattle.atspi_tree_model.specs.declared.view.Part.TheVariants.{Absent, Unknown};
ghost use Rattle.atspi_script_lines.specs.declared.line.Party.TheVariants.{App};
ghost use Rattle.atspi_protocol.specs.declared.news.part.PartName.TheVariants.{Text};
ghost use Rattle.atspi_protocol.specs.declared.following.question.Question.TheVariants.{GetChildren, GetItems};
ghost use Rattle.atspi_protocol.specs.following.ReaderState.{start_calls};
ghost use Rattle.atspi_trace.specs.Entry.{changed, quiet};
ghost use Rattle.atspi_trace_examples.specs.caches.Cases.{its_name};
ghost use Rattle.atspi_trace_examples.specs.traces.Cases.{button, stopped_world};
ghost use Rattle.atspi_trace_examples.specs.settled.Cases.{asked_all, asker, greeted, given_name, shown_name};
ghost use Rattle.atspi_trace_examples.specs.settled.Cases.{asks_text, asked_behind, asked_before, row_with, at_rest};
ghost use Rattle.atspi_trace_examples.specs.settled.Cases.{with_news};
ghost use Rattle.atspi_trace_caches.specs.settled.Laws.{NothingWaits, BeginsWell, IsAsked, AsksOfNode, IsPartAsked};
ghost use Rattle.atspi_trace_caches.specs.settled.Laws.{ArePartsAsked, HasAskedAll};

/// Nothing waits in a world with empty links; where a message waits for a reader, something does.
pub fn what_waits()
    ensures nothing { NothingWaits at_rest }
    ensures news { NothingWaits with_news → ⊥ }
{}

/// The calls of the start, and others behind them, begin well; a call for the children before the others, or a start
/// that is not done, does not.
pub fn what_begins_well()
    ensures start { BeginsWell (asked_all start_calls) }
    ensures more { BeginsWell (asked_all (start_calls ++ GetItems its_name ∷ [])) }
    ensures out_of_order { BeginsWell (asked_all (GetChildren ∷ start_calls)) → ⊥ }
    ensures not_done { BeginsWell (asked_all (take 9 start_calls)) → ⊥ }
{}

/// The start asks for the registry's children, and for no items.
pub fn what_is_asked()
    ensures children { IsAsked GetChildren (asked_all start_calls) }
    ensures items { IsAsked (GetItems its_name) (asked_all start_calls) → ⊥ }
{}

/// A call for a part is to be of a node that was added, of an application by its name: the root is there from the
/// start, another node once it is added; a name that is not the application's is none. Of other entries nothing is
/// said.
pub fn what_is_of_a_node()
    ensures root { AsksOfNode greeted (asks_text given_name 0) [] }
    ensures not_added { AsksOfNode greeted (asks_text given_name 1) [] → ⊥ }
    ensures added_then { AsksOfNode (greeted ++ changed 0 (Add 1 0 0 button) ∷ []) (asks_text given_name 1) [] }
    ensures no_name { AsksOfNode greeted (asks_text (codes "Demo") 0) [] → ⊥ }
    ensures other_entry { AsksOfNode [] quiet [] }
{}

/// A part that was asked for behind the last load was asked for; one before it was not, nor was one never asked for,
/// nor is another reader's call one's own.
pub fn what_part_is_asked()
    ensures behind { IsPartAsked asked_behind 0 0 its_name (path_of 0) Text }
    ensures before { IsPartAsked asked_before 0 0 its_name (path_of 0) Text → ⊥ }
    ensures never { IsPartAsked [] 0 0 its_name (path_of 0) Text → ⊥ }
    ensures all_behind { ArePartsAsked asked_behind 0 0 its_name (row_with Unknown) }
    ensures one_before { ArePartsAsked asked_before 0 0 its_name (row_with Unknown) → ⊥ }
    ensures nothing_unknown { ArePartsAsked [] 0 0 its_name (row_with Absent) }
{}

/// A reader that was told of no application asked for all once its start is done; one that was told of one that is
/// here, once it asked for its items too. Of one that stopped, or that is no longer there, none need be asked.
pub fn who_asked_for_all()
    ensures start { HasAskedAll [] [] 0 (asker start_calls []) }
    ensures items { HasAskedAll [] at_rest.ends 0 (asker (start_calls ++ GetItems shown_name ∷ []) (shown_name ∷ [])) }
    ensures stopped { HasAskedAll [] stopped_world.ends 0 (asker start_calls (shown_name ∷ [])) }
    ensures not_there { HasAskedAll [] [] 0 (asker start_calls (shown_name ∷ [])) }
    ensures no_start { HasAskedAll [] [] 0 (asker [] []) → ⊥ }
    ensures no_items { HasAskedAll [] at_rest.ends 0 (asker start_calls (shown_name ∷ [])) → ⊥ }
{}
