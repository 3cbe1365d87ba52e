//! Worked cases of what a reader has of an application.

ghost use Rattle.std.specs.Prelude.{◌≡◌, true, [], ◌∷◌, ◌++◌, None, Some, false, codes};
ghost use Rattle.atspi_trace_caches.specs.caches.Caches.{followed};
ghost use Rattle.atspi_trace_examples.specs.caches.Cases.{its_name, asked, told, loaded, renamed, heard_of, names_had};
ghost use Rattle.atspi_trace_examples.specs.caches.Cases.{missed, names_then, ready, ready_but, children_told};
ghost use Rattle.atspi_trace_examples.specs.caches.Cases.{child_told, names_had_of};
ghost use Rattle.atspi_trace_caches.specs.caches.Laws.{AreAsked};
ghost use Rattle.atspi_trace.specs.Entry.{changed, sent, heard, gone};
ghost use Rattle.atspi_tree_model.specs.declared.step.Step.TheVariants.{SetName};
ghost use Rattle.atspi_script_lines.specs.declared.line.Party.TheVariants.{App};
ghost use Rattle.atspi_protocol.specs.announcing.Signals.{caret_moved};
ghost use Rattle.atspi_protocol.specs.declared.following.question.Question.TheVariants.{GetItems};
ghost use Rattle.atspi_trace.specs.Hearing.{may_ask};

/// A reader has nothing before it took the return to its call for all items; then what the items tell; then what the
/// messages that it took make of that, and not what was sent and not taken; and nothing behind the news that the
/// application ended. Another reader has nothing, and one that knows the application by another name finds none of its
/// items.
pub fn what_is_kept()
    ensures before { names_had its_name told 0 ≡ None }
    ensures loaded { names_had its_name loaded 0 ≡ Some (codes "Demo" ∷ []) }
    ensures not_taken { names_had its_name renamed 0 ≡ Some (codes "Demo" ∷ []) }
    ensures taken { names_had its_name heard_of 0 ≡ Some (codes "Desk" ∷ []) }
    ensures last { (followed its_name heard_of 0 0).last ≡ 6 }
    ensures ended { names_had its_name (heard_of ++ gone 0 0 ∷ []) 0 ≡ None }
    ensures other { names_had its_name heard_of 1 ≡ None }
    ensures other_name { names_had (codes ":1.8") heard_of 0 ≡ Some [] }
{}

/// Where a message was missed, what the reader has is not the tree as of the last message taken.
pub fn what_is_stale()
    ensures had { names_had its_name missed 0 ≡ Some (codes "Demo" ∷ []) }
    ensures is { names_then missed 7 ≡ codes "Desk" ∷ [] }
{}

/// So a lawful trace lets a reader ask for the items of an application only where it misses nothing behind them: each
/// rule and each pattern of its start was returned, and it was told of the application. It may ask again for what it
/// holds.
pub fn what_may_be_asked()
    ensures allowed { may_ask ready (GetItems its_name) ≡ true }
    ensures no_rules { may_ask (ready_but 1 4) (GetItems its_name) ≡ false }
    ensures one_rule_lacks { may_ask (ready_but 3 4) (GetItems its_name) ≡ false }
    ensures no_patterns { may_ask (ready_but 4 9) (GetItems its_name) ≡ false }
    ensures one_pattern_lacks { may_ask (ready_but 6 7) (GetItems its_name) ≡ false }
    ensures any_name { may_ask ready (GetItems (codes ":1.99")) ≡ false }
{}

/// It is told of applications by the return to its call for the registry's children, and behind it by whoever sent that
/// return, where this tells that a child was added; by nobody before, and by nobody else.
pub fn who_is_named()
    ensures before { names_had_of (child_told (codes ":1.0") ∷ []) ≡ [] }
    ensures by_the_return { names_had_of (children_told ∷ []) ≡ its_name ∷ [] }
    ensures by_the_registry { names_had_of (children_told ∷ child_told (codes ":1.0") ∷ [])
        ≡ its_name ∷ codes ":1.8" ∷ [] }
    ensures by_another { names_had_of (children_told ∷ child_told (codes ":1.7") ∷ []) ≡ its_name ∷ [] }
{}

/// Each step between two messages that are taken is one to be asked for whole. Where nobody listens the other name was
/// not; where some pattern covers it, it was. A step before the last message taken, and one of another application,
/// need not be.
pub fn what_is_asked()
    ensures by_nobody { AreAsked its_name renamed 0 5 6 → ⊥ }
    ensures by_a_listener { AreAsked its_name (heard 0 (codes ":1.9") (codes "object:property-change") ∷ renamed) 0 5
        6 }
    ensures before_it { AreAsked its_name
        (renamed ++ sent (App 0) (record (caret_moved 0 0).message { serial = 7 }) ∷ []) 0 6 7 }
    ensures of_another { AreAsked its_name
        (loaded ++ changed 1 (SetName 0 (codes "Desk")) ∷ sent (App 0) (record (caret_moved 0 0).message { serial = 6 })
        ∷ []) 0 5 6 }
{}
