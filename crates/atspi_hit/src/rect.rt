//! Rectangles on the screen.

ghost use Rattle.std.specs.Prelude.{◌≡◌};
ghost use Rattle.atspi_hit.specs.Places.{covers, is_among};

/// A rectangle on the screen, in pixels: its left upper corner, its width and its height. Its right and lower edges are
/// not part of it.
#[derive(Clone, Copy, Debug, PartialEq, Eq)]
pub struct Rect {
    pub x: i32,
    pub y: i32,
    pub w: u32,
    pub h: u32,
}

/// Whether a number is among so many from the first on.
fn is_among(first: i32, count: u32, number: i32) -> bool
    ensures { result ≡ is_among first count number }
{
    let behind = i64::from(first) + i64::from(count);
    first <= number && i64::from(number) < behind
}

impl Rect {
    /// Whether a point is in it: `x <= px < x + w` and `y <= py < y + h`.
    pub fn covers(self, px: i32, py: i32) -> bool
        ensures { result ≡ covers self px py }
    {
        is_among(self.x, self.w, px) && is_among(self.y, self.h, py)
    }
}
