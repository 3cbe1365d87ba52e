//! The law about caches.

ghost use Rattle.atspi_trace_caches.specs.caches.Laws.{CachesFollow, LinesAreRead};

/// What a reader has of an application, by its own definitions: the load of the return to its last call for all items,
/// and folded into it each message taken since. It is the view of the application's tree as of the last message taken,
/// with the parts that the reader was told: behind each front of a lawful trace.
pub fn caches_follow()
    ensures { CachesFollow }
{}

/// What a reader reads from what it has, by its own definition of spoken lines: at a message directly behind a step the
/// lines that are due at the step, read from the tree as of the message; at any other message none; and at the
/// application's end the closing line that is due. Of a lawful trace.
pub fn lines_are_read()
    ensures { LinesAreRead }
{}
