//! What is due at places of longer runs.

ghost use Rattle.std.specs.Prelude.{◌≡◌, true, [], ◌∷◌, ◌++◌, None, Some, codes};
ghost use Rattle.atspi_script_lines.specs.declared.line.Line.TheVariants.{Show};
ghost use Rattle.atspi_script_lines.specs.declared.line.Party.TheVariants.{Bus, App, Reader};
ghost use Rattle.atspi_protocol.specs.declared.following.question.Question.TheVariants.{Hello, GetPart};
ghost use Rattle.atspi_protocol.specs.declared.news.part.PartName.TheVariants.{Caret};
ghost use Rattle.atspi_script_lines.specs.declared.deed.Deed.TheVariants.{InsertText};
ghost use Rattle.atspi_tree_model.specs.Path.{path_of};
ghost use Rattle.atspi_protocol.specs.following.Calls.{asking, user_call};
ghost use Rattle.atspi_trace.specs.Entry.{changed, got, spoke, showed, gone, dropped};
ghost use Rattle.atspi_headline.specs.Words.{begins_line, moves_bytes, writes, questions_in};
ghost use Rattle.atspi_headline.specs.Links.{completed, kept, drops_among, next_turn};
ghost use Rattle.atspi_headline.specs.Headline.{signals_due, rows_due, spoken_due, gone_due};
ghost use Rattle.atspi_headline_examples.specs.Runs.{app_starts};
ghost use Rattle.atspi_headline_examples.specs.Fronts.{loaded, root_row, listens, renaming, renaming_told, alerted};
ghost use Rattle.atspi_headline_examples.specs.Fronts.{ended, of_hello, moving};

/// A step is told where some heard pattern covers it, with the next number, and else not.
pub fn of_applications()
    ensures told { signals_due (loaded ++ listens) (changed 0 renaming) ≡ renaming_told ∷ [] }
    ensures untold { signals_due loaded (changed 0 renaming) ≡ [] }
{}

/// A reader shows what it loaded, and another reader nothing. It speaks the lines of a step whose announcement was
/// asked for, and of no other; and one line where the application is gone.
pub fn of_readers()
    ensures shown { rows_due loaded (begins_line (Show 0 0)) ≡ showed 0 0 (Some (root_row ∷ [])) ∷ [] }
    ensures another { rows_due loaded (begins_line (Show 1 0)) ≡ showed 1 0 None ∷ [] }
    ensures spoken { spoken_due (loaded ++ (listens ++ alerted)) (writes (got (Reader 0) (App 0) 5))
        ≡ spoke 0 0 (codes "alert: Saved") ∷ [] }
    ensures unasked { spoken_due (loaded ++ alerted) (writes (got (Reader 0) (App 0) 5)) ≡ [] }
    ensures closing { spoken_due loaded (writes (gone 0 0)) ≡ spoke 0 0 (codes "T, closed") ∷ [] }
{}

/// It learns of an application's end from the bus, and from no message that was not sent.
pub fn of_exits()
    ensures told { gone_due ended (writes (got (Reader 0) Bus 30)) ≡ gone 0 0 ∷ [] }
    ensures unsent { gone_due ended (writes (got (Reader 0) Bus 31)) ≡ [] }
{}

/// The last byte completes a message, and none before. Of two messages of 128 bytes a quota of 200 lets one in, and
/// drops who was to get the other; where 60 bytes were moved between, it lets in both.
pub fn of_links()
    ensures all_but_one { completed app_starts (App 0) true 127 ≡ [] }
    ensures last_byte { completed app_starts (App 0) true 128 ≡ (App 0, asking 1 Hello) ∷ [] }
    ensures one_is_kept { kept 200 [] (of_hello 0 ∷ of_hello 0 ∷ []) ≡ of_hello 0 ∷ [] }
    ensures both_are_kept { kept 200 [] (of_hello 0 ∷ of_hello 60 ∷ []) ≡ of_hello 0 ∷ of_hello 60 ∷ [] }
    ensures dropped { drops_among 200 [] (of_hello 0 ∷ of_hello 0 ∷ []) ≡ dropped (App 0) 128 128 ∷ [] }
    ensures not_dropped { drops_among 200 [] (of_hello 0 ∷ of_hello 60 ∷ []) ≡ [] }
{}

/// While the application's Hello waits, the next turn moves all of it.
pub fn of_turns()
    ensures { next_turn moving ≡ Some (moves_bytes (App 0) true 128) }
{}

/// A reader's own call for a part is read as that; a call of its user is none, whatever its text.
pub fn of_own_calls()
    ensures part { questions_in (asking 5 (GetPart (codes ":1.1") (path_of 1) Caret))
        ≡ GetPart (codes ":1.1") (path_of 1) Caret ∷ [] }
    ensures of_its_user { questions_in (user_call 5 (codes ":1.1") 1 (InsertText 0 (codes "CaretOffset"))) ≡ [] }
{}
