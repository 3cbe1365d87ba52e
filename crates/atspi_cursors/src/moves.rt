//! Where a cursor is after a change of its text.

ghost use Rattle.std.specs.Prelude.{◌≡◌, min};
ghost use Rattle.atspi_cursors.specs.Moves as moves;

/// A cursor after characters were put into its text: so many, at a place. One that stands there stays in front of them.
/// Where the sum passes a `u32` it is the largest one.
pub fn after_insertion(cursor: u32, at: u32, count: u32) -> u32
    ensures { result ≡ min (moves.after_insertion cursor at count) 4294967295 }
{
    if at < cursor {
        return cursor.saturating_add(count);
    }
    cursor
}

/// A cursor after characters were taken out of its text: so many, from a place on. One among them comes to that place.
pub fn after_deletion(cursor: u32, at: u32, count: u32) -> u32
    ensures { result ≡ moves.after_deletion cursor at count }
{
    if cursor <= at {
        return cursor;
    }
    if cursor - at <= count {
        return at;
    }
    cursor - count
}
