//! Worked cases of messages on their way.

ghost use Rattle.std.specs.Prelude.{◌≡◌, [], ◌∷◌, ◌++◌, codes};
ghost use Rattle.atspi_tree_model.specs.declared.step.Step.TheVariants.{SetName};
ghost use Rattle.atspi_script_lines.specs.declared.line.Party.TheVariants.{Registry, App, Reader};
ghost use Rattle.atspi_trace.specs.Entry.{changed, heard, exited, dropped};
ghost use Rattle.atspi_tree_model.specs.View.{nothing_told};
ghost use Rattle.atspi_trace_examples.specs.caches.Cases.{its_name};
ghost use Rattle.atspi_trace_examples.specs.ways.Cases.{serials_on_the_way, told_all, told_name, its_view, name_told};
ghost use Rattle.atspi_trace_examples.specs.ways.Cases.{both_started};
ghost use Rattle.atspi_trace_caches.specs.ways.Laws.{MissesNothingSince, LeadsToNow, AreHere, AreAskedSince};

/// To a reader the application's messages on its own down link are on their way, those of others not, and behind them
/// what the bus did not take yet; to another reader the last alone; and nothing of an application that is not there.
pub fn what_is_on_the_way()
    ensures both { serials_on_the_way 0 0 ≡ 5 ∷ 7 ∷ [] }
    ensures another_reader { serials_on_the_way 1 0 ≡ 7 ∷ [] }
    ensures another_application { serials_on_the_way 0 1 ≡ [] }
{}

/// The news of the other name leads from the view before it to the view now; without it the reader has another view
/// than that.
pub fn what_leads_to_now()
    ensures folded { LeadsToNow its_name told_name 0 nothing_told its_view (name_told ∷ []) }
    ensures nothing_folded { LeadsToNow its_name told_name 0 nothing_told its_view [] → ⊥ }
{}

/// Since message 5 nothing was missed as long as no signal was sent; once one was, it must be on its way.
pub fn what_was_missed_since()
    ensures none { MissesNothingSince its_name told_all 0 5 }
    ensures the_name { MissesNothingSince its_name told_name 0 5 → ⊥ }
{}

/// Each step since message 5 is one to be asked for whole, up to now. Where nobody listens the other name was not;
/// where some pattern covers it, it was. Since message 6 there was no step, and a step of another application need not
/// be asked for.
pub fn what_was_asked_since()
    ensures by_nobody { AreAskedSince its_name told_name 0 5 → ⊥ }
    ensures by_a_listener { AreAskedSince its_name (heard 0 (codes ":1.9") (codes "object:property-change") ∷ told_name)
        0 5 }
    ensures before_it { AreAskedSince its_name told_name 0 6 }
    ensures of_another { AreAskedSince its_name (told_all ++ changed 1 (SetName 0 (codes "Desk")) ∷ []) 0 5 }
{}

/// Both are here once both were started, as long as neither stopped nor was dropped, and the registry was not.
pub fn who_is_here()
    ensures both { AreHere both_started 0 0 }
    ensures another_reader { AreHere both_started 1 0 → ⊥ }
    ensures stopped { AreHere (both_started ++ exited (App 0) ∷ []) 0 0 → ⊥ }
    ensures closed { AreHere (both_started ++ dropped (Reader 0) 200 100 ∷ []) 0 0 → ⊥ }
    ensures no_registry { AreHere (both_started ++ dropped Registry 200 100 ∷ []) 0 0 → ⊥ }
{}
