//! What follows from what `replay` answers, and what its texts tell. Each law is the contract of a function that does
//! nothing.

ghost use Rattle.std.specs.Prelude.{ℕ, List, Option};
ghost use Rattle.atspi_run_replay.specs.Causes.{Causes};
ghost use Rattle.atspi_run_replay.specs.Complete.{EndsFullPast, EndsWellWithin, Unfailed};
ghost use Rattle.atspi_run_replay.specs.OneTrace.{TextsAreOfTraces, TextsHaveOneTrace, WritingsHaveOneTrace};
ghost use Rattle.atspi_run_replay.specs.Run.{Replayed};
ghost use Rattle.atspi_trace_texts.specs.declared.options.TraceOptions.{TraceOptions};

/// A script within the limit whose lines are in the grammar and apply, and neither a source nor a sink that fails: all
/// of it is done, with status 0; or the registry was dropped, serials were spent or memory was wanting.
pub fn replay_ends_well()
    ensures ends_well { (options : TraceOptions) (limit status source source' sink sink' : ℕ)
        (left left' w w' : Option (List ℕ)) → Replayed options limit status left left' w w'
        → Causes status source source' sink sink' → Unfailed source source' → Unfailed sink sink'
        → EndsWellWithin limit status left }
{}

/// A script that passes the limit, whose whole lines inside it are in the grammar and apply, and neither a source nor a
/// sink that fails: status 8, whatever stands behind the limit; or the registry was dropped, serials were spent or
/// memory was wanting.
pub fn replay_ends_at_its_limit()
    ensures ends_full { (options : TraceOptions) (limit status source source' sink sink' : ℕ)
        (left left' w w' : Option (List ℕ)) → Replayed options limit status left left' w w'
        → Causes status source source' sink sink' → Unfailed source source' → Unfailed sink sink'
        → EndsFullPast limit status left }
{}

/// What is written of a trace with the bytes of its messages tells that trace: of such a text there is at most one,
/// with one list of bytes.
pub fn texts_have_one_trace()
    ensures text { TextsHaveOneTrace }
    ensures written { WritingsHaveOneTrace }
{}

/// What is written is the text of the trace that was told.
pub fn texts_are_of_traces()
    ensures { TextsAreOfTraces }
{}
