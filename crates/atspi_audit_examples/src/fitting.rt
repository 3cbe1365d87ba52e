//! Which event fits behind which.

ghost use Rattle.std.specs.Prelude.{◌≡◌, ◌∷◌, ◌++◌, [], None, Some};
ghost use Rattle.atspi_tree_model.specs.declared.edit.EditFault.TheVariants.{IsRoot};
ghost use Rattle.atspi_trace.specs.Work.{of_edit};
ghost use Rattle.atspi_audit_due.specs.Fits.{Fits, IsLawful, due_behind, refusal_behind};
ghost use Rattle.atspi_audit_examples.specs.Cases.{added, alone, alone_trace, focused, front, hello_of, start_of, with_root_removed};

/// What is due behind each front of the trace of an application alone, and that nothing is behind all of it.
pub fn what_is_due()
    ensures first { due_behind alone [] ≡ Some start_of }
    ensures second { due_behind alone (front 1) ≡ Some hello_of }
    ensures third { due_behind alone (front 2) ≡ Some added }
    ensures fourth { due_behind alone (front 3) ≡ Some focused }
    ensures nothing { due_behind alone alone_trace ≡ None }
{}

/// Each of its events fits those before it, and it may end behind the last: it is lawful.
pub fn what_is_lawful()
    ensures { IsLawful alone alone_trace }
{}

/// One left out, one twice, two exchanged, and one more than all: each at the first that differs.
pub fn what_does_not_fit()
    ensures left_out { Fits alone (front 2) focused → ⊥ }
    ensures twice { Fits alone alone_trace focused → ⊥ }
    ensures exchanged { Fits alone (front 1) added → ⊥ }
{}

/// It may not end before the last.
pub fn what_may_not_end()
    ensures { IsLawful alone (front 3) → ⊥ }
{}

/// A line that is refused behind all of it, by its number; none is where all are done.
pub fn what_is_refused()
    ensures root { refusal_behind with_root_removed alone_trace ≡ Some (4, of_edit IsRoot) }
    ensures nothing { refusal_behind alone alone_trace ≡ None }
    ensures not_yet { refusal_behind with_root_removed (front 3) ≡ None }
{}
