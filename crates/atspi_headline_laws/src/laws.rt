//! The laws of the headline that are proved, each of the run of every lawful trace.

ghost use Rattle.atspi_headline.specs.Headline.{LawOfSteps, LawOfApplications, LawOfShownRows, LawOfSpokenLines};
ghost use Rattle.atspi_headline.specs.Headline.{LawOfExits};
ghost use Rattle.std.specs.Prelude.{false};
ghost use Rattle.atspi_headline_laws.specs.Laws.{OfEachTrace, StartsFollowTheirLines};
ghost use Rattle.atspi_headline_laws.specs.Laws.{RegistrySendsItsStep, ApplicationsHear, ReadersCallInTurn};
ghost use Rattle.atspi_headline_laws.specs.Laws.{NothingFollowsADrop, ProvedLaws};

/// A lawful trace has a run that keeps all of the laws below at once.
pub fn runs_keep_laws()
    ensures { OfEachTrace (λ run. ProvedLaws run) }
{}

/// A run begins with a line, and an end starts behind its line, and nowhere else.
pub fn starts_follow_their_lines()
    ensures { OfEachTrace (λ run. StartsFollowTheirLines run) }
{}

/// The law of steps: behind an edit's line stand the steps of that edit of the live tree, behind a call that an
/// application takes those of its answer, and behind anything else none.
pub fn steps_follow_edits_and_calls()
    ensures { OfEachTrace (λ run. LawOfSteps false run) }
{}

/// The law of applications: directly behind each step stand its announcement and its echoes that a heard pattern
/// covers, behind all steps the reply to the call or the next call of the start, and an application sends nothing else.
pub fn applications_say_what_is_due()
    ensures { OfEachTrace (λ run. LawOfApplications false run) }
{}

/// The registry sends what its step sends, from the state that the run tells, directly behind what it takes.
pub fn registry_sends_its_step()
    ensures { OfEachTrace RegistrySendsItsStep }
{}

/// What an application hears of changes directly behind the registry's signal, or behind the list of all pairs that its
/// third call returns, as these say, and nowhere else. With what the registry sends and how readers call this is the
/// law of registry, hearing and readers.
pub fn applications_hear_the_registry()
    ensures { OfEachTrace ApplicationsHear }
{}

/// Behind a reader's start stands its Hello, behind its line its user's call, and behind a message that it took at most
/// one call of its own, with its next serial, where each own call before was answered; for all items of an application,
/// where its five patterns were registered. A reader sends nothing else.
pub fn readers_call_in_turn()
    ensures { OfEachTrace ReadersCallInTurn }
{}

/// The law of shown rows: behind a line `show`, and nowhere else, stand the rows of the view of the application's tree
/// as of the last message taken, with the parts that were told; nothing of one that is not held.
pub fn rows_are_as_of_the_last_message()
    ensures { OfEachTrace (λ run. LawOfShownRows false run) }
{}

/// The law of spoken lines: behind a message of an application that it holds, which announces a step, a reader speaks
/// the lines of the step, and behind the news of its end one closing line; it speaks nothing else.
pub fn lines_are_of_the_step_announced()
    ensures { OfEachTrace (λ run. LawOfSpokenLines false run) }
{}

/// The law of exits: an end exits behind its line, and nowhere else, and nothing of it stands behind that; directly
/// behind each message by which a reader learns that an application's name is nobody's stands that it is gone, and
/// nowhere else, and behind that the reader takes nothing of it.
pub fn exits_are_told()
    ensures { OfEachTrace (λ run. LawOfExits false run) }
{}

/// Behind the news that an end was dropped stands nothing of it, and behind that of the registry nothing at all: a part
/// of the law of dropped ends.
pub fn nothing_follows_a_drop()
    ensures { OfEachTrace NothingFollowsADrop }
{}
