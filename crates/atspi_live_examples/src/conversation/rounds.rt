//! Rounds of an end that sends no messages, so that it says only the lines of its authentication.

ghost use Rattle.std.specs.Prelude.{◌≡◌, ◌∷◌, ◌++◌, [], codes};
ghost use Rattle.atspi_auth.specs.Lines.{end_of_line};
ghost use Rattle.atspi_live_host.specs.declared.call.Did.{Did};
ghost use Rattle.atspi_live_host.specs.declared.call.Call.{Call};
ghost use Rattle.atspi_live_conversation.specs.Rounds.{AreRounds, Breaks, IsRound, IsRun};
ghost use Rattle.atspi_live_conversation.specs.declared.ending.Ending.{Ending};
ghost use Rattle.atspi_live_examples.specs.conversation.Silent.{IsDone, Says, hail};

/// In the first round the first line is written, also where the read found nothing. A round that writes nothing stands
/// only where all is given, and one that writes other bytes is none.
pub fn single_rounds()
    ensures nothing_read { IsRound Says IsDone 0 4096 [] []
        (Call.Read 0 [] Did.NotYet ∷ Call.Write 0 hail (Did.Done 16) ∷ []) }
    ensures all_given { IsRound Says IsDone 0 4096 [] hail (Call.Read 0 [] Did.NotYet ∷ []) }
    ensures answered { IsRound Says IsDone 0 4096 [] hail
        (Call.Read 0 (codes "DATA" ++ end_of_line) (Did.Done 6) ∷ Call.Write 0 (codes "DATA" ++ end_of_line) Did.NotYet
        ∷ []) }
    ensures is_due { IsRound Says IsDone 0 4096 [] [] (Call.Read 0 [] Did.NotYet ∷ []) → ⊥ }
    ensures is_other { IsRound Says IsDone 0 4096 [] []
        (Call.Read 0 [] Did.NotYet ∷ Call.Write 0 (codes "DATA" ++ end_of_line) (Did.Done 6) ∷ []) → ⊥ }
{}

/// Two whole rounds, and a run that ended behind them; a round whose write failed is not whole.
pub fn runs()
    ensures two { AreRounds (λ _. Says) IsDone 0 4096 2
        (Call.Read 0 [] Did.NotYet ∷ Call.Write 0 hail (Did.Done 16) ∷ Call.Read 0 [] Did.NotYet ∷ []) }
    ensures ended { IsRun (λ _. Says) IsDone 0 4096 Ending.PeerEnded 5
        (Call.Read 0 [] Did.NotYet ∷ Call.Write 0 hail (Did.Done 16) ∷ Call.Read 0 [] Did.NotYet
        ∷ Call.Read 0 [] Did.End ∷ []) }
    ensures failed { Breaks Says IsDone 0 4096 Ending.HostFailed [] []
        (Call.Read 0 [] Did.NotYet ∷ Call.Write 0 hail Did.Failed ∷ []) }
    ensures none_done { IsRun (λ _. Says) IsDone 0 4096 Ending.RoundsDone 0 [] }
{}
