//! The status that tells how a run ended, and what is written with it.

ghost use Rattle.std.specs.Prelude.{◌≡◌, ◌∷◌, [], ℕ, true, false, List, None, Some, codes};
ghost use Rattle.atspi_live_conversation.specs.declared.ending.Ending.{Ending};
ghost use Rattle.atspi_live_reader.specs.Following.{IsUntold, WritesPart};
ghost use Rattle.atspi_live_reader.specs.inner.Following.{HasWords};
ghost use Rattle.atspi_live_reader.specs.Handed.{IsFrontOf, KeepsLine};
ghost use Rattle.atspi_live_reader.specs.Runs.{OfTaken, ReportsLast, RunEnds};
ghost use Rattle.atspi_live_reader.specs.Spoken.{sent_in};
ghost use Rattle.atspi_live_examples.specs.reader.Held.{name, told};
ghost use Rattle.atspi_message.specs.Envelope.{Envelope};
ghost use Rattle.atspi_protocol.specs.following.ReaderState.{sends, tells_end};

/// With the last words behind what was written before, the status is 0 where the peer ended, 8 where all rounds were
/// done, 7 where the host failed, 13 where numbers were spent; with any other nothing of the kind is told.
pub fn statuses_of_endings()
    ensures peer { ReportsLast (codes "b") Ending.PeerEnded 0 (Some (codes "a")) (Some (codes "ab")) }
    ensures rounds { ReportsLast (codes "b") Ending.RoundsDone 8 (Some (codes "a")) (Some (codes "ab")) }
    ensures host { ReportsLast (codes "b") Ending.HostFailed 7 (Some (codes "a")) (Some (codes "ab")) }
    ensures spent { ReportsLast (codes "b") Ending.Spent 13 (Some (codes "a")) (Some (codes "ab")) }
    ensures no_memory { ReportsLast (codes "b") Ending.NoMemory 5 (Some (codes "a")) (Some (codes "a")) }
    ensures peer_other { ReportsLast (codes "b") Ending.PeerEnded 7 (Some (codes "a")) (Some (codes "ab")) → ⊥ }
    ensures rounds_other { ReportsLast (codes "b") Ending.RoundsDone 0 (Some (codes "a")) (Some (codes "ab")) → ⊥ }
    ensures host_other { ReportsLast (codes "b") Ending.HostFailed 0 (Some (codes "a")) (Some (codes "ab")) → ⊥ }
    ensures spent_other { ReportsLast (codes "b") Ending.Spent 0 (Some (codes "a")) (Some (codes "ab")) → ⊥ }
{}

/// Where the sink failed or memory was wanting for the last words a front of them was written, and the status is 4
/// or 5.
pub fn words_cut_off()
    ensures sink { IsUntold 4 }
    ensures memory { IsUntold 5 }
    ensures other { IsUntold 6 → ⊥ }
    ensures cut { ReportsLast (codes "bc") Ending.PeerEnded 4 (Some (codes "a")) (Some (codes "ab")) }
    ensures other_words { WritesPart 4 (1 ∷ []) (Some []) (Some (0 ∷ [])) → ⊥ }
    ensures no_link { (path : List ℕ) → RunEnds path [] 7 5 None (Some []) (Some []) }
    ensures no_link_quiet { (path : List ℕ) → RunEnds path [] 0 5 None (Some []) (Some []) → ⊥ }
    ensures no_link_silent { (path : List ℕ) → RunEnds path [] 7 5 None (Some []) (Some (codes "a")) → ⊥ }
{}

/// Which runs leave words: not one that was not authenticated, and not one for which memory was wanting.
pub fn endings_with_words()
    ensures peer { HasWords Ending.PeerEnded }
    ensures rounds { HasWords Ending.RoundsDone }
    ensures spent { HasWords Ending.Spent }
    ensures unauthenticated { HasWords Ending.NotAuthenticated → ⊥ }
    ensures no_memory { HasWords Ending.NoMemory → ⊥ }
{}

/// A line stands behind the others, or memory was wanting for it; of these deeds none is a message.
pub fn kept_lines()
    ensures kept { KeepsLine false false (codes "a") (codes "ab") (codes "b") }
    ensures lost { KeepsLine false true (codes "a") (codes "a") (codes "b") }
    ensures dropped { KeepsLine false false (codes "a") (codes "a") (codes "b") → ⊥ }
    ensures fed_again { KeepsLine true false (codes "a") (codes "ab") (codes "b") → ⊥ }
    ensures none_sent { sent_in told ≡ [] }
    ensures sent { (e f : Envelope) → sent_in (sends e ∷ tells_end name ∷ sends f ∷ []) ≡ e ∷ f ∷ [] }
    ensures longer { IsFrontOf (codes "ab") (codes "a") → ⊥ }
    ensures untold { OfTaken 0 None (λ taken. ⊥) }
    ensures took { OfTaken 0 (Some []) (λ taken. taken ≡ codes "a") → ⊥ }
{}
