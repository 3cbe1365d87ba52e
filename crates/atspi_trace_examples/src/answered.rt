//! Worked cases of what returns tell.

ghost use Rattle.std.specs.Prelude.{[]};
ghost use Rattle.atspi_script_lines.specs.declared.line.Party.TheVariants.{App, Reader};
ghost use Rattle.atspi_trace.specs.Entry.{got, quiet};
ghost use Rattle.atspi_trace_examples.specs.caches.Cases.{told};
ghost use Rattle.atspi_trace_examples.specs.answered.Cases.{text_told, nothing_told_of, unknown_told};
ghost use Rattle.atspi_trace_laws.specs.answered.Laws.{IsItemsTold, IsPartTold};

/// An application without a tree has no items to tell. Nothing is said of what was not sent, and of what no call of
/// that reader asked for.
pub fn items_as_sent()
    ensures no_tree { IsItemsTold told (got (Reader 0) (App 0) 5) [] → ⊥ }
    ensures not_sent { IsItemsTold [] (got (Reader 0) (App 0) 5) [] }
    ensures not_asked { IsItemsTold told (got (Reader 1) (App 0) 5) [] }
    ensures other_entry { IsItemsTold [] quiet [] }
{}

/// A return to a call for a part tells a value, and of a node that was added.
pub fn parts_as_sent()
    ensures no_value { IsPartTold nothing_told_of (got (Reader 0) (App 0) 5) [] → ⊥ }
    ensures no_node { IsPartTold unknown_told (got (Reader 0) (App 0) 5) [] → ⊥ }
    ensures not_asked { IsPartTold text_told (got (Reader 1) (App 0) 5) [] }
    ensures other_entry { IsPartTold [] quiet [] }
{}
