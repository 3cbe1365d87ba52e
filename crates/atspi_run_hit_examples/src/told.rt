//! What lines write.

ghost use Rattle.std.specs.Prelude.{◌≡◌, ◌∷◌, ◌++◌, [], None, Some, codes};
ghost use Rattle.atspi_hit.specs.declared.cells.Way.TheVariants as ways;
ghost use Rattle.atspi_hit_answers.specs.declared.ask.Ask.TheVariants as asks;
ghost use Rattle.atspi_run_hit.specs.Scene.{after};
ghost use Rattle.atspi_run_hit.specs.Told.{Tells, application, caller, cell_line, child_at, follow_line};
ghost use Rattle.atspi_run_hit.specs.declared.line.HitLine.TheVariants as lines;
ghost use Rattle.atspi_run_hit_examples.specs.Room.{related, room};

/// The reply to a call comes from :1.1 to :1.0; its number is that of the call among the calls.
pub fn calls()
    ensures application { application ≡ codes ":1.1" }
    ensures caller { caller ≡ codes ":1.0" }
    ensures nobody { Tells room (lines.Call 9 asks.Extents)
        (codes "error l 1 1 error=org.freedesktop.DBus.Error.UnknownObject reply=1 destination=:1.0 signature=s "
        ++ (codes "[\"UnknownObject\"]" ++ 10 ∷ [])) }
    ensures second { Tells (after room (lines.Call 0 asks.Extents)) (lines.Call 9 asks.Extents)
        (codes "error l 1 2 error=org.freedesktop.DBus.Error.UnknownObject reply=2 destination=:1.0 signature=s "
        ++ (codes "[\"UnknownObject\"]" ++ 10 ∷ [])) }
{}

/// The node of the cell beside a cell, or none.
pub fn cells()
    ensures some { cell_line (Some 12) ≡ codes "cell 12" ++ 10 ∷ [] }
    ensures none { cell_line None ≡ codes "cell none" ++ 10 ∷ [] }
    ensures child { child_at (2 ∷ 3 ∷ 4 ∷ []) (Some 1) ≡ Some 3 }
    ensures no_child { child_at (2 ∷ 3 ∷ 4 ∷ []) None ≡ None }
    ensures down { Tells room (lines.Cell 1 1 ways.Down) (codes "cell 5" ++ 10 ∷ []) }
{}

/// The targets of a relation in their order, or none. Other lines write nothing.
pub fn relations()
    ensures some { follow_line (12 ∷ 3 ∷ []) ≡ codes "follow 12 3" ++ 10 ∷ [] }
    ensures none { follow_line [] ≡ codes "follow none" ++ 10 ∷ [] }
    ensures one { Tells related (lines.Follow 1 2) (codes "follow 3" ++ 10 ∷ []) }
    ensures other { Tells related (lines.Follow 1 3) (codes "follow none" ++ 10 ∷ []) }
    ensures nothing { Tells related lines.Nothing [] }
    ensures before { Tells None (lines.App (codes "T")) [] }
{}
