//! The headline of `replay` on one page: the nine laws of a lawful trace, whole, each in the trace's own words.
//! `docs/HEADLINE.md` says how to read it. Definitions, and one law; `atspi_headline_examples` has a lawful run and a
//! wrong one for each law.
#![tactic(auto)]

ghost use Rattle.std.specs.Prelude.{[]};
ghost use Rattle.atspi_headline.specs.Headline.{Headline};

/// A script without lines has the trace without entries.
pub fn nothing_happens()
    ensures { Headline [] [] }
{}
