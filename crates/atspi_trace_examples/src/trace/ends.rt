//! Ends by their numbers and names, and what waits on their links.

ghost use Rattle.std.specs.Prelude.{◌≡◌, ◌∷◌, [], None, Some, codes, true, false};
ghost use Rattle.atspi_script_lines.specs.declared.line.Party.TheVariants as party;
ghost use Rattle.atspi_trace.specs.World.{away, here, stopped};
ghost use Rattle.atspi_trace.specs.Ends.{app_count, app_named, conn_of, end_of, is_app, is_here, is_reader, leaves};
ghost use Rattle.atspi_trace.specs.Ends.{number_of, party_at, put_down, put_up, reader_count, rest_of, same_party};
ghost use Rattle.atspi_trace.specs.Ends.{stops, taken_down, taken_up, with_end};
ghost use Rattle.atspi_trace_examples.specs.trace.Small.{app, ends, idle, letter, named_app, other_said, reader, said};

/// Parties are the same by their kind and number; a connection's party is that of its end, and nobody's is the bus.
pub fn parties()
    ensures bus { same_party party.Bus party.Bus ≡ true }
    ensures registry { same_party party.Registry party.Registry ≡ true }
    ensures app { same_party (party.App 3) (party.App 3) ≡ true }
    ensures other_app { same_party (party.App 3) (party.App 4) ≡ false }
    ensures reader { same_party (party.Reader 3) (party.Reader 3) ≡ true }
    ensures other_reader { same_party (party.Reader 3) (party.Reader 4) ≡ false }
    ensures other_kind { same_party (party.App 3) (party.Reader 3) ≡ false }
    ensures bus_or_registry { same_party party.Bus party.Registry ≡ false }
    ensures conn { conn_of (ends idle) (party.App 1) ≡ Some 2 }
    ensures reader_conn { conn_of (ends idle) (party.Reader 0) ≡ Some 4 }
    ensures no_conn { conn_of (ends idle) (party.App 7) ≡ None }
    ensures end { end_of (ends idle) (party.App 1) ≡ Some (app 1) }
    ensures no_end { end_of (ends idle) (party.App 7) ≡ None }
    ensures of_conn { party_at (ends idle) 4 ≡ party.Reader 0 }
    ensures of_no_conn { party_at (ends idle) 9 ≡ party.Bus }
{}

/// Numbers, and how many there are of each kind.
pub fn counts()
    ensures app { number_of (party.App 3) ≡ 3 }
    ensures reader { number_of (party.Reader 3) ≡ 3 }
    ensures bus { number_of party.Bus ≡ 0 }
    ensures registry { number_of party.Registry ≡ 0 }
    ensures is_app { is_app (party.App 3) ≡ true }
    ensures reader_is_app { is_app (party.Reader 3) ≡ false }
    ensures is_reader { is_reader (party.Reader 3) ≡ true }
    ensures app_is_reader { is_reader (party.App 3) ≡ false }
    ensures apps { app_count (ends idle) ≡ 3 }
    ensures readers { reader_count (ends idle) ≡ 2 }
    ensures named { app_named (codes ":1.1") (ends idle) ≡ Some 0 }
    ensures of_registry { app_named (codes ":1.0") (ends idle) ≡ None }
    ensures no_name { app_named (codes ":1.9") (ends idle) ≡ None }
    ensures second { app_named (codes ":1.9") (app 0 ∷ record (app 3) { unique = Some (codes ":1.9") } ∷ []) ≡ Some 3 }
{}

/// One end changes, and the others are as they were.
pub fn standing()
    ensures here { is_here here ≡ true }
    ensures stopped { is_here stopped ≡ false }
    ensures away { is_here away ≡ false }
    ensures first { with_end 0 stops (app 0 ∷ app 1 ∷ []) ≡ stops (app 0) ∷ app 1 ∷ [] }
    ensures second { with_end 1 stops (app 0 ∷ app 1 ∷ []) ≡ app 0 ∷ stops (app 1) ∷ [] }
    ensures none { with_end 2 stops (app 0 ∷ app 1 ∷ []) ≡ app 0 ∷ app 1 ∷ [] }
    ensures stops { stops (record named_app { up = said ∷ []; up_moved = 4; down = letter ∷ []; down_moved = 5 })
        ≡ record named_app { standing = stopped; down = letter ∷ []; down_moved = 5 } }
    ensures leaves { leaves (record named_app { up = said ∷ []; up_moved = 4; down = letter ∷ []; down_moved = 5 })
        ≡ record named_app { standing = away } }
{}

/// A message stands behind those that wait, and the first is taken, with what was moved of it.
pub fn links()
    ensures up { (put_up (other_said ∷ []) (record (app 0) { up = said ∷ [] })).up ≡ said ∷ other_said ∷ [] }
    ensures down { (put_down letter (record (app 0) { down = [] })).down ≡ letter ∷ [] }
    ensures taken_up { taken_up
        (record (app 0) { up = said ∷ other_said ∷ []; up_moved = 4; down = letter ∷ []; down_moved = 5 })
        ≡ record (app 0) { up = other_said ∷ []; down = letter ∷ []; down_moved = 5 } }
    ensures taken_down { taken_down
        (record (reader 0 idle) { up = said ∷ []; up_moved = 4; down = letter ∷ letter ∷ []; down_moved = 5 })
        ≡ record (reader 0 idle) { up = said ∷ []; up_moved = 4; down = letter ∷ [] } }
    ensures nothing { taken_up (app 0) ≡ app 0 }
    ensures rest { rest_of (said ∷ other_said ∷ []) ≡ other_said ∷ [] }
{}
