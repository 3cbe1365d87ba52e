//! Which lines of a reader were written, and which are still to be.

ghost use Rattle.std.specs.Prelude.{◌≡◌, ◌++◌, ◌+◌, ℕ, List, [], Option, Some, codes, true, false};
ghost use Rattle.atspi_live_conversation.specs.Talking.{Going};
ghost use Rattle.atspi_live_conversation.specs.declared.conversation.Conversation.{Conversation};
ghost use Rattle.atspi_live_conversation.specs.declared.ending.Ending.{Ending};
ghost use Rattle.atspi_live_host.specs.declared.call.Call.{Call};
ghost use Rattle.atspi_message.specs.Envelope.{Envelope};
ghost use Rattle.atspi_reader.specs.ReaderOf.{reader_of};
ghost use Rattle.atspi_live_reader.specs.Following.{AreWords, GoesOn, IsMuted, IsQuiet, IsSpentIn, SpeaksOn, Stands};
ghost use Rattle.atspi_live_reader.specs.Handed.{Follows};
ghost use Rattle.atspi_live_reader.specs.Shows.{shown_in};
ghost use Rattle.atspi_live_reader.specs.Spoken.{IsSpent};
ghost use Rattle.atspi_live_reader.specs.declared.live_reader.LiveReader.{LiveReader};
ghost use Rattle.atspi_live_reader.specs.declared.over.Over.TheVariants as overs;
ghost use Rattle.atspi_live_reader.specs.Cases.{said, told};

use atspi_live_conversation::Ending;

/// A reader is quiet that has no line to be written, and for none of whose memory was wanting. It speaks on where its
/// lines were written, and nothing else changed.
pub fn quiet_readers()
    ensures quiet { (l : LiveReader) → IsQuiet (record l { lines = []; starved = false }) }
    ensures line_left { (l : LiveReader) → IsQuiet (record l { lines = codes "a"; starved = false }) → ⊥ }
    ensures line_lost { (l : LiveReader) → IsQuiet (record l { lines = []; starved = true }) → ⊥ }
    ensures spoke { (l : LiveReader)
        → SpeaksOn (record l { lines = codes "b"; starved = false }) (record l { lines = []; starved = false })
        (Some (codes "a")) (Some (codes "ab")) }
    ensures other { (l : LiveReader)
        → SpeaksOn (record l { lines = codes "b"; starved = false }) (record l { lines = []; starved = false })
        (Some (codes "a")) (Some (codes "ac")) → ⊥ }
    ensures lost { (l : LiveReader)
        → SpeaksOn (record l { lines = []; starved = true }) (record l { lines = []; starved = false }) (Some [])
        (Some []) → ⊥ }
    ensures not_quiet { (l : LiveReader)
        → SpeaksOn (record l { lines = []; starved = false }) (record l { lines = codes "a"; starved = false })
        (Some []) (Some []) → ⊥ }
    ensures other_reader { (l m : LiveReader) → (m.reader ≡ l.reader → ⊥)
        → SpeaksOn (record l { lines = []; starved = false }) (record m { lines = []; starved = false }) (Some [])
        (Some []) → ⊥ }
{}

/// The lines were not all written: the sink failed behind a front of them, or memory was wanting for one, and then
/// nothing was written.
pub fn muted_readers()
    ensures wanting { (l : LiveReader) → IsMuted (overs.Ended Ending.NoMemory) l (Some (codes "a")) (Some (codes "a")) }
    ensures other_ending { (l : LiveReader) → IsMuted (overs.Ended Ending.Spent) l (Some (codes "a")) (Some (codes "a"))
        → ⊥ }
    ensures wanting_written { (l : LiveReader)
        → IsMuted (overs.Ended Ending.NoMemory) l (Some (codes "a")) (Some (codes "ab")) → ⊥ }
    ensures part { (l : LiveReader)
        → IsMuted overs.NotWritten (record l { lines = codes "bc"; starved = false }) (Some (codes "a"))
        (Some (codes "ab")) }
    ensures other { (l : LiveReader)
        → IsMuted overs.NotWritten (record l { lines = codes "bc"; starved = false }) (Some (codes "a"))
        (Some (codes "ac")) → ⊥ }
    ensures starved { (l : LiveReader)
        → IsMuted overs.NotWritten (record l { lines = codes "bc"; starved = true }) (Some (codes "a"))
        (Some (codes "ab")) → ⊥ }
{}

/// Once a run is over, the lines that were kept are to be written, and then the last words; where memory was wanting
/// for a line they are not known.
pub fn words_left()
    ensures kept { (l : LiveReader) → (reader_of l.reader).out ≡ told
        → AreWords (record l { lines = codes "a"; starved = false }) Ending.Spent (codes "a" ++ said) }
    ensures shown { (l : LiveReader) → (reader_of l.reader).out ≡ told
        → AreWords (record l { lines = codes "a"; starved = false }) Ending.PeerEnded
        (codes "a" ++ (said ++ shown_in (reader_of l.reader))) }
    ensures unknown { (l : LiveReader) → AreWords (record l { starved = true }) Ending.Spent (codes "x") }
    ensures other { (l : LiveReader)
        → AreWords (record l { lines = codes "a"; starved = false }) Ending.Spent (codes "x") → ⊥ }
{}

/// What a live reader did is what its reader did, with the lines that it keeps.
pub fn readers_at_work()
    ensures stands { (written : List ℕ) (l : LiveReader) (took said : List Envelope)
        → Follows written (reader_of l.reader) true (codes "a") took said
        → Stands written (record l { lines = codes "a"; starved = true }) took said }
    ensures spent { (l : LiveReader) (e : Envelope) → IsSpent (reader_of l.reader) e → IsSpentIn l e }
    ensures not_spent { (l : LiveReader) (e : Envelope) → (IsSpent (reader_of l.reader) e → ⊥) → IsSpentIn l e → ⊥ }
    ensures goes { (k : ℕ) (calls calls' : Option (List Call)) (c c' : Conversation) (l m : LiveReader)
        → ((written : List ℕ) (n : ℕ) → Going (Stands written) k calls n c l
        → Going (Stands (written ++ codes "b")) k calls' (n + 1) c' m)
        → GoesOn k calls calls' c c' l m (Some (codes "a")) (Some (codes "ab")) }
    ensures goes_other { (k : ℕ) (calls calls' : Option (List Call)) (c c' : Conversation) (l m : LiveReader)
        → GoesOn k calls calls' c c' l m (Some (codes "a")) (Some (codes "b")) → ⊥ }
    ensures goes_so { (k : ℕ) (calls calls' : Option (List Call)) (c c' : Conversation) (l m : LiveReader)
        → GoesOn k calls calls' c c' l m (Some (codes "a")) (Some (codes "ab"))
        → (written : List ℕ) (n : ℕ) → Going (Stands written) k calls n c l
        → Going (Stands (written ++ codes "b")) k calls' (n + 1) c' m }
{}
