//! Worked cases: the words of a unit line, what it writes, and where cursors go, worked out by hand.

ghost use Rattle.std.specs.Prelude.{◌≡◌, ◌∷◌, [], pos, negsuc, None, Some, codes};
ghost use Rattle.atspi_units.specs.declared.grain.Grain.TheVariants as grains;
ghost use Rattle.atspi_cursors.specs.declared.reading.Way.TheVariants.{Here, Next, Prev};
ghost use Rattle.atspi_script_lines.specs.Words.{literal, number, app_name, reader_name, quote};
ghost use Rattle.atspi_script_lines.specs.declared.line.Party.TheVariants.{App, Reader, Registry};
ghost use Rattle.atspi_trace_events.specs.declared.event.Event.TheVariants.{Got, Gone, Quiet};
ghost use Rattle.atspi_tree_model.specs.declared.news.News.TheVariants.{Inserted, Deleted, Caret};
ghost use Rattle.atspi_browse.specs.UnitLine.{grain_word, way_word, unit_form, told_form};
ghost use Rattle.atspi_browse.specs.Cursor.{moved, cursor_behind, put, inserted, deleted, ended, other};
ghost use Rattle.atspi_browse.specs.Cursor.{cursor, event, unit, moment, of_news};

/// The words.
pub fn words()
    ensures here { way_word Here ≡ codes "here" }
    ensures next { way_word Next ≡ codes "next" }
    ensures prev { way_word Prev ≡ codes "prev" }
    ensures character { grain_word grains.Char ≡ codes "char" }
    ensures word { grain_word grains.Word ≡ codes "word" }
    ensures line { grain_word grains.Line ≡ codes "line" }
{}

/// The words of a line, and those that it writes: the unit with its ends, or that there is none.
pub fn forms()
    ensures line { unit_form (record { reader = 0; app = 2; node = 1; way = Next; grain = grains.Word })
        ≡ literal (codes "unit") ∷ reader_name 0 ∷ app_name 2 ∷ number 1 ∷ literal (codes "next")
        ∷ literal (codes "word") ∷ [] }
    ensures unit { told_form (record { reader = 0; app = 2; node = 1; way = Next; grain = grains.Word })
        (codes "so one two") (Some (record { start = 7; end = 10; cursor = 10 }))
        ≡ literal (codes "unit") ∷ reader_name 0 ∷ app_name 2 ∷ number 1 ∷ number 7 ∷ number 10
        ∷ quote (codes "two") ∷ [] }
    ensures none { told_form (record { reader = 0; app = 2; node = 1; way = Next; grain = grains.Word })
        (codes "so one two") None
        ≡ literal (codes "unit") ∷ reader_name 0 ∷ app_name 2 ∷ number 1 ∷ literal (codes "end") ∷ [] }
{}

/// What moves the cursor of a reader in one text: its own unit lines there, and the application's end.
pub fn moments()
    ensures read { moment 0 2 1 [] (unit (record { reader = 0; app = 2; node = 1; way = Next; grain = grains.Word })
        (codes "one two") (Some (record { start = 0; end = 3; cursor = 3 }))) ≡ put 3 }
    ensures nothing_read { moment 0 2 1 []
        (unit (record { reader = 0; app = 2; node = 1; way = Prev; grain = grains.Word })
        (codes "one two") None) ≡ other }
    ensures another_node { moment 0 2 3 []
        (unit (record { reader = 0; app = 2; node = 1; way = Next; grain = grains.Word })
        (codes "one two") (Some (record { start = 0; end = 3; cursor = 3 }))) ≡ other }
    ensures another_app { moment 0 1 1 []
        (unit (record { reader = 0; app = 2; node = 1; way = Next; grain = grains.Word })
        (codes "one two") (Some (record { start = 0; end = 3; cursor = 3 }))) ≡ other }
    ensures another_reader { moment 1 2 1 []
        (unit (record { reader = 0; app = 2; node = 1; way = Next; grain = grains.Word })
        (codes "one two") (Some (record { start = 0; end = 3; cursor = 3 }))) ≡ other }
    ensures gone { moment 0 2 1 [] (event (Gone 0 2)) ≡ ended }
    ensures another_gone { moment 0 2 1 [] (event (Gone 0 1)) ≡ other }
    ensures unsent { moment 0 2 1 [] (event (Got (Reader 0) (App 2) 9)) ≡ other }
    ensures of_registry { moment 0 2 1 [] (event (Got (Reader 0) Registry 9)) ≡ other }
    ensures quiet { moment 0 2 1 [] (event Quiet) ≡ other }
{}

/// What news tell of a text.
pub fn news()
    ensures insertion { of_news (codes "/a") (Inserted (codes "/a") (pos 4) (codes "so ")) ≡ inserted 4 3 }
    ensures of_another_node { of_news (codes "/a") (Inserted (codes "/b") (pos 4) (codes "so ")) ≡ other }
    ensures before_the_text { of_news (codes "/a") (Inserted (codes "/a") (negsuc 0) (codes "so ")) ≡ other }
    ensures deletion { of_news (codes "/a") (Deleted (codes "/a") (pos 4) (pos 3) (codes "so ")) ≡ deleted 4 3 }
    ensures no_count { of_news (codes "/a") (Deleted (codes "/a") (pos 4) (negsuc 2) (codes "so ")) ≡ other }
    ensures caret { of_news (codes "/a") (Caret (codes "/a") (pos 4)) ≡ other }
{}

/// A cursor at the end of `one` goes with what stands before it, and not back; one that read nothing stays at the
/// start.
pub fn cursors()
    ensures over_an_insertion { cursor_behind 0 (put 3 ∷ inserted 0 3 ∷ []) ≡ 6 }
    ensures not_stayed { cursor_behind 0 (put 3 ∷ inserted 0 3 ∷ []) ≡ 3 → ⊥ }
    ensures at_an_insertion { cursor_behind 0 (put 3 ∷ inserted 3 2 ∷ []) ≡ 3 }
    ensures before_the_first { cursor_behind 0 (inserted 0 3 ∷ []) ≡ 0 }
    ensures into_a_deletion { cursor_behind 0 (put 5 ∷ deleted 2 9 ∷ []) ≡ 2 }
    ensures over_a_deletion { cursor_behind 0 (put 5 ∷ deleted 0 2 ∷ []) ≡ 3 }
    ensures anew { cursor_behind 0 (put 5 ∷ ended ∷ []) ≡ 0 }
    ensures nothing { moved 5 other ≡ 5 }
{}

/// Where a cursor is behind all that happened: what the last reading left, of that text, and the start once the
/// application is gone.
pub fn happenings()
    ensures none { cursor 0 2 1 [] ≡ 0 }
    ensures read { cursor 0 2 1
        (unit (record { reader = 0; app = 2; node = 1; way = Next; grain = grains.Word }) (codes "one two")
        (Some (record { start = 0; end = 3; cursor = 3 })) ∷ event Quiet ∷ []) ≡ 3 }
    ensures of_another { cursor 0 2 4
        (unit (record { reader = 0; app = 2; node = 1; way = Next; grain = grains.Word }) (codes "one two")
        (Some (record { start = 0; end = 3; cursor = 3 })) ∷ []) ≡ 0 }
    ensures gone { cursor 0 2 1
        (unit (record { reader = 0; app = 2; node = 1; way = Next; grain = grains.Word }) (codes "one two")
        (Some (record { start = 0; end = 3; cursor = 3 })) ∷ event (Gone 0 2) ∷ []) ≡ 0 }
{}
