//! What is left of a line before any of it is done.

ghost use Rattle.std.specs.Prelude.{◌≡◌, ◌∷◌, [], None, Some, codes, true, false};
ghost use Rattle.atspi_script_lines.specs.declared.deed.Deed.TheVariants.{SetCaret};
ghost use Rattle.atspi_script_lines.specs.declared.line.Line.TheVariants as line;
ghost use Rattle.atspi_script_lines.specs.declared.line.Party.TheVariants as party;
ghost use Rattle.atspi_match.specs.routing.Queues.{Bus};
ghost use Rattle.atspi_trace.specs.Causes as cause;
ghost use Rattle.atspi_trace.specs.Work.{doing, draining, moving_down, moving_up, resting, turning, work_of};
ghost use Rattle.atspi_trace_examples.specs.trace.Small.{idle, world};

use atspi_tree_model::Edit;

/// Lines of the script as a whole.
pub fn of_scripts()
    ensures blank { (b : Bus) → work_of (world b idle) line.Blank ≡ resting }
    ensures quota { (b : Bus) → work_of (world b idle) (line.Quota 2048) ≡ doing (cause.renews 2048) }
    ensures app { (b : Bus) → work_of (world b idle) (line.App (codes "U")) ≡ doing (cause.starts_app (codes "U")) }
    ensures reader { (b : Bus) → work_of (world b idle) line.Reader ≡ doing cause.starts_reader }
    ensures turns { (b : Bus) → work_of (world b idle) (line.Turns 5) ≡ turning 5 5 }
    ensures drain { (b : Bus) → work_of (world b idle) line.Drain ≡ draining }
{}

/// Lines of one end, by its connection.
pub fn of_ends()
    ensures edit { (b : Bus)
        → work_of (world b idle) (line.Edit 1 (Edit.Remove 3)) ≡ doing (cause.edits 2 (Edit.Remove 3)) }
    ensures swap { (b : Bus) → work_of (world b idle) (line.Swap 1) ≡ doing cause.swaps_face }
    ensures exit { (b : Bus) → work_of (world b idle) (line.Exit 1) ≡ doing (cause.exits 2) }
    ensures leave { (b : Bus) → work_of (world b idle) (line.Leave 0) ≡ doing (cause.exits 4) }
    ensures bytes_up { (b : Bus) → work_of (world b idle) (line.Bytes (party.App 0) true 9) ≡ moving_up 1 9 }
    ensures bytes_down { (b : Bus) → work_of (world b idle) (line.Bytes (party.Reader 0) false 9) ≡ moving_down 4 9 }
    ensures registry { (b : Bus) → work_of (world b idle) (line.Bytes party.Registry true 9) ≡ moving_up 0 9 }
    ensures show { (b : Bus) → work_of (world b idle) (line.Show 0 2) ≡ doing (cause.shows 4 2) }
{}

/// A user's call goes to the name of its application, which is empty where the bus gave none yet.
pub fn of_calls()
    ensures named { (b : Bus)
        → work_of (world b idle) (line.Call 0 0 6 (SetCaret 1)) ≡ doing (cause.calls 4 (codes ":1.1") 6 (SetCaret 1)) }
    ensures nameless { (b : Bus)
        → work_of (world b idle) (line.Call 0 1 6 (SetCaret 1)) ≡ doing (cause.calls 4 [] 6 (SetCaret 1)) }
    ensures no_app { (b : Bus)
        → work_of (world b idle) (line.Call 0 7 6 (SetCaret 1)) ≡ doing (cause.calls 4 [] 6 (SetCaret 1)) }
{}

/// Of a line of somebody who was not started nothing is left.
pub fn of_nobody()
    ensures edit { (b : Bus) → work_of (world b idle) (line.Edit 7 (Edit.Remove 0)) ≡ resting }
    ensures call { (b : Bus) → work_of (world b idle) (line.Call 7 0 0 (SetCaret 1)) ≡ resting }
    ensures exit { (b : Bus) → work_of (world b idle) (line.Exit 7) ≡ resting }
    ensures bytes { (b : Bus) → work_of (world b idle) (line.Bytes (party.Reader 7) true 9) ≡ resting }
{}
