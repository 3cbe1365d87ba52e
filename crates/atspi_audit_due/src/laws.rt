//! What holds of events that fit. Each law is the contract of a function without a body, so that it is proved with the
//! crate; the crates above cite the same definitions.

ghost use Rattle.atspi_audit_due.specs.Laws.{AllElseIsFixed, AllowsMore, BrokenIsFound, DiffersInCallsAlone};
ghost use Rattle.atspi_audit_due.specs.Laws.{GoesWhereEachFits, LawfulIsAnswered, LawfulIsFitting, LawfulIsFound};
ghost use Rattle.atspi_audit_due.specs.Laws.{VerdictsAreOne, WhatStandsFits};

/// What a reader of this project may ask, any reader may.
pub fn allows_more()
    ensures { AllowsMore }
{}

/// So what may stand in a lawful trace of this project fits.
pub fn what_stands_fits()
    ensures { WhatStandsFits }
{}

/// All but the readers' own calls is fixed by the lines and the events before.
pub fn all_else_is_fixed()
    ensures { AllElseIsFixed }
{}

/// One event behind the other may stand exactly where each fits those before it.
pub fn goes_where_each_fits()
    ensures { GoesWhereEachFits }
{}

/// A trace is lawful, or broken off by a dropped registry, exactly where each event fits those before it, nothing is
/// due at the end, and it may end there.
pub fn lawful_is_fitting()
    ensures { LawfulIsFitting }
{}

/// What this project finds lawful an auditor does.
pub fn lawful_is_found()
    ensures { LawfulIsFound }
{}

/// And what is the front of a lawful trace, broken off where the registry was dropped.
pub fn broken_is_found()
    ensures { BrokenIsFound }
{}

/// And nothing else, where each call of a reader's own is one that a reader of this project may send.
pub fn differs_in_calls_alone()
    ensures { DiffersInCallsAlone }
{}

/// A text has one verdict at most, whoever gives it.
pub fn verdicts_are_one()
    ensures { VerdictsAreOne }
{}

/// That it is lawful is the verdict of just the texts of lawful traces, and of those broken off by a dropped registry.
pub fn lawful_is_answered()
    ensures { LawfulIsAnswered }
{}
