//! The laws of busy and quiet that are proved, and all laws that are proved at once.

ghost use Rattle.std.specs.Prelude.{false};
ghost use Rattle.atspi_headline.specs.Headline.{LawOfSegments, LawOfQuiet};
ghost use Rattle.atspi_headline_laws.specs.Laws.{OfEachTrace};
ghost use Rattle.atspi_headline_quiet.specs.Laws.{LinesEndTold, LinesMoveTold, LawsKept};

/// A lawful trace has a run that keeps all of these at once: all laws of `atspi_headline_laws`, the law of bus and
/// links, and those below.
pub fn runs_keep_laws()
    ensures { OfEachTrace (λ run. LawsKept run) }
{}

/// The law of segments: a run begins with a line, and an end starts behind its line and nowhere else; `bytes` makes one
/// move, of so many of the bytes that wait, or of the end of one that stopped; `turns` and `drain` make turns, each the
/// first thing that waits; nothing is moved behind another line.
pub fn lines_move_what_is_due()
    ensures { OfEachTrace (λ run. LawOfSegments false run) }
{}

/// The law of busy and quiet: `turns` makes so many turns, or fewer where then nothing waits, and where something waits
/// still `busy` ends its acts; `drain` makes turns until nothing waits, and `quiet` ends its acts; no word stands
/// elsewhere; wherever a line ends with nothing waiting each live reader holds each live application as it is now.
pub fn quiet_is_told_where_nothing_waits()
    ensures { OfEachTrace (λ run. LawOfQuiet false run) }
{}

/// Where a line ends its acts end with the word that is due (`busy`, `quiet` or none), and nowhere else has one;
/// `turns` made so many turns, or fewer where then nothing waits, and `drain` turns until nothing waits; where nothing
/// waits each live reader holds each live application as it is now, with every part known: so for one answer whether
/// something waits. A part of the law of busy and quiet.
pub fn lines_end_with_their_word()
    ensures { OfEachTrace LinesEndTold }
{}

/// A line `bytes` makes one move, of the link that it names, of so many bytes at most, or of the end of one that
/// stopped; nothing is moved behind another line but `turns` and `drain`. A part of the law of segments.
pub fn lines_move_what_they_name()
    ensures { OfEachTrace LinesMoveTold }
{}
