//! The cases.

ghost use Rattle.std.specs.Prelude.{◌≡◌, ◌∷◌, ◌++◌, [], codes};
ghost use Rattle.atspi_auth.specs.Lines.{end_of_line};
ghost use Rattle.atspi_auth.specs.Talk.{after, behind, client_start};
ghost use Rattle.atspi_auth.specs.declared.said.AuthLine.{AuthLine};
ghost use Rattle.atspi_auth.specs.declared.stage.Stage.TheVariants.{Over};
ghost use Rattle.atspi_live_host.specs.declared.call.Did.{Did};
ghost use Rattle.atspi_live_host.specs.declared.call.Call.{Call};
ghost use Rattle.atspi_live_conversation.specs.Moved.{reads};
ghost use Rattle.atspi_live_conversation.specs.Sent.{AreSent};
ghost use Rattle.atspi_live_conversation.specs.Speech.{line_bytes, lines_for};

use atspi_auth::AuthLine;
use atspi_live_host::{Call, Did};

/// The answers of the reads of a link, in order; those of other links and of other calls are none.
pub fn answers_of_reads()
    ensures none { reads 0 [] ≡ [] }
    ensures some { reads 0
        (Call.Read 0 [] Did.NotYet ∷ Call.Write 0 (codes "a") (Did.Done 1) ∷ Call.Read 1 (codes "b") (Did.Done 1)
        ∷ Call.Read 0 (codes "cd") (Did.Done 2) ∷ Call.Read 0 [] Did.End ∷ [])
        ≡ Did.NotYet ∷ Did.Done 2 ∷ Did.End ∷ [] }
    ensures others { reads 0
        (Call.Connect (codes "/p") (Did.Done 0) ∷ Call.Accept Did.NotYet ∷ Call.Listen (codes "/p") (Did.Done 0)
        ∷ Call.Close 0 ∷ []) ≡ [] }
{}

/// The bytes of lines stand one behind the other.
pub fn bytes_of_lines()
    ensures none { line_bytes [] ≡ [] }
    ensures some { line_bytes (AuthLine.Data ∷ AuthLine.Begin ∷ [])
        ≡ codes "DATA" ++ (13 ∷ 10 ∷ (codes "BEGIN" ++ (13 ∷ 10 ∷ []))) }
{}

/// A client says its first line at once, and each further one when the server's line is whole.
pub fn lines()
    ensures first { lines_for [] ≡ AuthLine.Hail ∷ [] }
    ensures not_whole { lines_for (codes "DATA" ++ 13 ∷ []) ≡ AuthLine.Hail ∷ [] }
    ensures second { lines_for (codes "DATA" ++ end_of_line) ≡ AuthLine.Hail ∷ AuthLine.Data ∷ [] }
{}

/// Of nothing nothing is sent.
pub fn sent()
    ensures { AreSent [] [] }
{}

/// The lines are over once the server's `OK` is whole, and what stands behind it is messages'.
pub fn is_over()
    ensures stage { (after client_start
        (codes "DATA"
        ++ (end_of_line ++ (codes "OK 61747370693200000000000000000001" ++ (end_of_line ++ codes "l"))))).stage
        ≡ Over }
    ensures behind { behind client_start
        (codes "DATA"
        ++ (end_of_line ++ (codes "OK 61747370693200000000000000000001" ++ (end_of_line ++ codes "l"))))
        ≡ codes "l" }
    ensures lines { lines_for
        (codes "DATA"
        ++ (end_of_line ++ (codes "OK 61747370693200000000000000000001" ++ (end_of_line ++ codes "l"))))
        ≡ AuthLine.Hail ∷ AuthLine.Data ∷ AuthLine.Begin ∷ [] }
{}
