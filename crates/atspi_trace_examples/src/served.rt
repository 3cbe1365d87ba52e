//! Worked cases of steps that are asked for, and of registrations that come first.

ghost use Rattle.std.specs.Prelude.{[], ◌∷◌, codes, drop};
ghost use Rattle.atspi_protocol.specs.following.ReaderState.{start_calls};
ghost use Rattle.atspi_trace.specs.Entry.{heard, quiet};
ghost use Rattle.atspi_trace.specs.Hearing.{patterns_in};
ghost use Rattle.atspi_trace_examples.specs.caches.Cases.{its_name, loaded, heard_of};
ghost use Rattle.atspi_trace_caches.specs.caches.Laws.{IsServed};
ghost use Rattle.atspi_trace_examples.specs.served.Cases.{greeted, asked_behind, takes_call};
ghost use Rattle.atspi_trace_caches.specs.served.Laws.{IsHeardOfFirst};

/// The reader is `:1.1`, the first that greets the bus. Where the application heard of all five patterns under that
/// name it may take the reader's call for its items; where it heard of them under another name, or of four alone, no
/// lawful trace is so. Nothing is said where what it takes is no such call, nor of other entries.
pub fn what_comes_first()
    ensures under_its_name { IsHeardOfFirst (asked_behind (codes ":1.1") (patterns_in start_calls)) takes_call [] }
    ensures under_another { IsHeardOfFirst (asked_behind (codes ":1.9") (patterns_in start_calls)) takes_call [] → ⊥ }
    ensures one_short { IsHeardOfFirst (asked_behind (codes ":1.1") (drop 1 (patterns_in start_calls))) takes_call []
        → ⊥ }
    ensures no_call { IsHeardOfFirst greeted takes_call [] }
    ensures anything { IsHeardOfFirst [] quiet [] }
{}

/// A reader took the return that loads the application, and then the news of its other name: that step was to be asked
/// for whole. Where nobody listens it was not, so no lawful trace is so; where some pattern covers it, it was. Nothing
/// was to be asked for up to the return, nor for another reader.
pub fn what_is_served()
    ensures by_nobody { IsServed heard_of its_name 0 0 → ⊥ }
    ensures by_a_listener { IsServed (heard 0 (codes ":1.9") (codes "object:property-change") ∷ heard_of) its_name 0 0 }
    ensures up_to_the_return { IsServed loaded its_name 0 0 }
    ensures another_reader { IsServed heard_of its_name 1 0 }
{}
