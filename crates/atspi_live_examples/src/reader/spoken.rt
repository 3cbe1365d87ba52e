//! What a reader speaks, and what it has still to write where its run is over.

ghost use Rattle.std.specs.Prelude.{◌≡◌, ℕ, List, ◌∷◌, ◌++◌, [], codes};
ghost use Rattle.atspi_types.specs.declared.fault.Fault.{Fault};
ghost use Rattle.atspi_live_conversation.specs.declared.ending.Ending.{Ending};
ghost use Rattle.atspi_live_reader.specs.Runs.{IsAll};
ghost use Rattle.atspi_live_reader.specs.Shows.{last_words};
ghost use Rattle.atspi_live_reader.specs.Spoken.{IsAllSpoken, say_line, spoken_in};
ghost use Rattle.atspi_live_examples.specs.reader.Held.{name, said, told, two_known};
ghost use Rattle.atspi_live_examples.specs.reader.Held as given;
ghost use Rattle.atspi_protocol.specs.following.ReaderState.{begins};

/// A line is spoken under the name of its application; messages and the ends of applications are no lines.
pub fn spoken_lines()
    ensures line { say_line name (codes "OK") ≡ codes "say :1.2 " ++ 34 ∷ (codes "OK" ++ 34 ∷ 10 ∷ []) }
    ensures none { spoken_in [] ≡ [] }
    ensures some { spoken_in told ≡ said }
{}

/// Where its run is over a reader has the lines to write that it did not hand out, whatever ended the run, and where
/// the peer ended then what it holds.
pub fn last_words_of_readers()
    ensures ended { last_words Ending.PeerEnded (record begins { out = told }) ≡ said }
    ensures ended_holding { last_words Ending.PeerEnded (record two_known { out = told }) ≡ said ++ given.shows }
    ensures rounds_done { last_words Ending.RoundsDone (record two_known { out = told }) ≡ said }
    ensures failed { last_words Ending.HostFailed (record two_known { out = told }) ≡ said }
    ensures malformed { (start : ℕ) (fault : Fault)
        → last_words (Ending.Malformed start fault) (record two_known { out = told }) ≡ said }
    ensures spent { last_words Ending.Spent (record two_known { out = told }) ≡ said }
{}

/// Where nothing was taken, nothing is all that is spoken and shown.
pub fn all_of_nothing()
    ensures spoken { IsAllSpoken [] [] }
    ensures shown { IsAll [] [] }
    ensures no_more { (w : List ℕ) → IsAllSpoken [] w → w ≡ [] }
{}
