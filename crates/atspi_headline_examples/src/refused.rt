//! Wrong runs, each refused by one law alone.

ghost use Rattle.atspi_headline_examples.specs.Refused.{IsRefusedBy, of_steps, of_applications, of_links, of_readers};
ghost use Rattle.atspi_headline_examples.specs.Refused.{of_shown_rows, of_spoken_lines, of_exits, of_quiet};
ghost use Rattle.atspi_headline_examples.specs.Refused.{of_dropped_ends};
ghost use Rattle.atspi_headline_examples.specs.Runs.{unedited, edited_twice, skipped, unasked, unmoved, uncaused};
ghost use Rattle.atspi_headline_examples.specs.Runs.{unheard_of, unanswered};
ghost use Rattle.atspi_headline_examples.specs.Runs.{unheld, unspoken, edited_late, gone_early, untold, quiet_early};
ghost use Rattle.atspi_headline_examples.specs.Runs.{made_up};

/// A step without an edit, and an edit that is done twice; a signal that nobody registered for.
pub fn of_trees()
    ensures unedited { IsRefusedBy of_steps unedited }
    ensures edited_twice { IsRefusedBy of_steps edited_twice }
    ensures unasked { IsRefusedBy of_applications unasked }
{}

/// A message that is taken without its bytes, and one that is not taken with its last byte; one of the bus's own
/// without a cause; the registry dropped with made-up numbers.
pub fn of_the_bus()
    ensures unmoved { IsRefusedBy of_links unmoved }
    ensures skipped { IsRefusedBy of_links skipped }
    ensures uncaused { IsRefusedBy of_links uncaused }
    ensures made_up { IsRefusedBy of_dropped_ends made_up }
{}

/// A pattern that was not heard of; a call of a reader that took nothing; rows of what is not held; a line that nothing
/// brings.
pub fn of_readers()
    ensures unheard { IsRefusedBy of_readers unheard_of }
    ensures unanswered { IsRefusedBy of_readers unanswered }
    ensures unheld { IsRefusedBy of_shown_rows unheld }
    ensures unspoken { IsRefusedBy of_spoken_lines unspoken }
{}

/// A step behind an exit; the end of an application of which no news came; a message that waits and is not told; quiet
/// while one waits.
pub fn of_ends()
    ensures edited_late { IsRefusedBy of_exits edited_late }
    ensures gone_early { IsRefusedBy of_exits gone_early }
    ensures untold { IsRefusedBy of_quiet untold }
    ensures quiet_early { IsRefusedBy of_quiet quiet_early }
{}
