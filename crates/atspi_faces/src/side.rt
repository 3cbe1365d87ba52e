//! One side of a gap in a text, with places that are noted so that finding another walks over a few hundred characters.

ghost use Rattle.std.specs.Prelude.{◌≡◌, ◌+◌, ◌-◌, ◌^◌, ◌≤◌, ◌<◌, ◌++◌, ◌∷◌, ◌⊎◌, [], List, ℕ, length, take, drop};
ghost use Rattle.std.specs.Prelude.{reverse, chars, vec_len, MatchOption, OnSome};
ghost use Rattle.atspi_base.specs.Places.{CutAt};
ghost use Rattle.atspi_faces.specs.Sides.{IsPlace, AreNoted, IsSide, AreSpread, AreSides};

use crate::walk::byte_of;
use std::alloc::Global;

/// About how many characters stand from one noted place to the next.
const STEP: u32 = 256;

/// A place in a text, from one of its ends on: so many characters, which take so many bytes.
#[derive(Clone, Copy)]
pub struct Place {
    pub chars: u32,
    pub bytes: usize,
}

/// One side of a gap in a text, read from the text's end up to the gap: how much stands there, and places that are
/// noted in it.
#[derive(Drop)]
pub struct Side {
    pub end: Place,
    places: Vec<Place>,
}

impl Place {
    /// The end itself.
    const START: Place = Place { chars: 0, bytes: 0 };

    /// What is left without the first so many characters.
    pub fn without(self, other: Place) -> Place
        ensures chars { result.chars ≡ self.chars - other.chars }
        ensures bytes { result.bytes ≡ self.bytes - other.bytes }
    {
        Place {
            chars: self.chars.saturating_sub(other.chars),
            bytes: self.bytes.saturating_sub(other.bytes),
        }
    }
}

impl Side {
    /// A side with nothing in it.
    pub fn new(alloc: Global) -> Side
        ensures { IsSide [] result }
    {
        Side {
            end: Place::START,
            places: Vec::new(alloc),
        }
    }

    /// Lets the side before a gap reach to the end of a text that begins as it did.
    pub fn grow(&mut self, text: &str, end: Place)
        requires counted { end.chars ≡ length (chars text.now) }
        requires sized { end.bytes ≡ length text.now }
        requires noted { AreNoted (chars text.now) end.chars (reverse self.old.places.items) }
        ensures side { IsSide (chars text.now) self.new }
        ensures end { self.new.end ≡ end }
    {
        self.end = end;
        note(&mut self.places, text, end.chars);
    }

    /// Leaves so much of the side.
    pub fn shorten(&mut self, left: Place)
        ensures side { (cs : List ℕ) → IsSide cs self.old → IsPlace cs left → IsSide (take left.chars cs) self.new }
        ensures end { self.new.end ≡ left }
    {
        shed(&mut self.places, left.chars);
        self.end = left;
    }

    /// Leaves so much of the side, and gives the rest to the other side of the gap. The place where the gap was is
    /// noted where none is near.
    fn give(&mut self, other: &mut Side, left: Place)
        requires chars_fit { self.old.end.chars + other.old.end.chars < 2 ^ 32 }
        requires bytes_fit { self.old.end.bytes + other.old.end.bytes < 2 ^ 32 }
        requires less { left.chars ≤ self.old.end.chars }
        ensures sides { (text : List ℕ) → AreSides text self.old other.old → IsPlace text left
            → AreSides text self.new other.new }
        ensures end { self.new.end ≡ left }
        ensures rest { other.new.end.chars ≡ self.old.end.chars + other.old.end.chars - left.chars }
    {
        let total = Place {
            chars: self.end.chars + other.end.chars,
            bytes: self.end.bytes + other.end.bytes,
        };
        put(&mut other.places, other.end, STEP);
        spill(&mut self.places, &mut other.places, total, left.chars);
        self.end = left;
        other.end = total.without(left);
    }

    /// The last noted place that is at most so many characters on.
    fn near(&self, at: u32) -> Place
        ensures before { result.chars ≤ at }
        ensures place { (cs : List ℕ) → IsSide cs self.now → IsPlace cs result }
    {
        let n = self.places.partition_point(|place| place.chars <= at);
        // that places rise is known of a side of a text alone, so the place that was found is looked at
        if n == 0 || at < self.places[n - 1].chars {
            return Place::START;
        }
        self.places[n - 1]
    }

    /// The first noted place that is at least so many characters on, or the side's end.
    fn near_behind(&self, at: u32) -> Place
        requires { at ≤ self.now.end.chars }
        ensures behind { at ≤ result.chars }
        ensures place { (cs : List ℕ) → IsSide cs self.now → IsPlace cs result }
    {
        let n = self.places.partition_point(|place| place.chars < at);
        if n == self.places.len() || self.places[n].chars < at {
            return self.end;
        }
        self.places[n]
    }

    /// At which byte of the text before the gap the character at a place begins.
    pub fn byte_of(&self, text: &str, at: u32) -> usize
        requires side { IsSide (chars text.now) self.now }
        requires within { at ≤ self.now.end.chars }
        ensures { CutAt text.now at result }
    {
        further(text, self.near(at), self.end.chars, at)
    }

    /// At which byte of the text behind the gap the character at a place begins.
    pub fn byte_behind(&self, text: &str, at: u32) -> usize
        requires side { IsSide (reverse (chars text.now)) self.now }
        requires within { at ≤ self.now.end.chars }
        ensures { CutAt text.now at result }
    {
        let near = self.near_behind(self.end.chars - at);
        further(text, self.end.without(near), self.end.chars, at)
    }
}

/// At which byte of a text in one piece the character at a place begins.
pub fn byte_in(text: &str, front: &Side, back: &Side, at: u32) -> usize
    requires sides { AreSides (chars text.now) front.now back.now }
    requires within { at ≤ front.now.end.chars + back.now.end.chars }
    ensures { CutAt text.now at result }
{
    let gap = front.end;
    if at <= gap.chars {
        return front.byte_of(&text[..gap.bytes], at);
    }
    gap.bytes + back.byte_behind(&text[gap.bytes..], at - gap.chars)
}

/// Moves the gap to a place.
pub fn move_gap(front: &mut Side, back: &mut Side, gap: Place)
    requires chars_fit { front.old.end.chars + back.old.end.chars < 2 ^ 32 }
    requires bytes_fit { front.old.end.bytes + back.old.end.bytes < 2 ^ 32 }
    requires within { gap.chars ≤ front.old.end.chars + back.old.end.chars }
    ensures sides { (text : List ℕ) → AreSides text front.old back.old → IsPlace text gap
        → AreSides text front.new back.new }
    ensures at { front.new.end.chars ≡ gap.chars }
    ensures behind { back.new.end.chars ≡ front.old.end.chars + back.old.end.chars - gap.chars }
{
    if gap.chars <= front.end.chars {
        front.give(back, gap);
    } else {
        let total = Place {
            chars: front.end.chars + back.end.chars,
            bytes: front.end.bytes + back.end.bytes,
        };
        back.give(front, total.without(gap));
    }
}

/// At which byte the character at a place begins, from a place on that is at most there.
fn further(text: &str, from: Place, count: u32, at: u32) -> usize
    requires counted { count ≡ length (chars text.now) }
    requires from { IsPlace (chars text.now) from }
    requires ordered { from.chars ≤ at }
    requires within { at ≤ count }
    ensures { CutAt text.now at result }
{
    let rest = &text[from.bytes..];
    from.bytes + byte_of(rest, count - from.chars, at - from.chars)
}

/// The last noted place, or the start.
fn last_of(places: &[Place]) -> Place
    ensures { (cs : List ℕ) → (upto : ℕ) → AreNoted cs upto (reverse places.now)
        → IsPlace cs result × (result.chars ≤ upto) × AreNoted cs result.chars (reverse places.now) }
{
    match places.last() {
        Some(place) => *place,
        None => Place::START,
    }
}

/// Notes places of a text, so many characters apart, behind those that are noted. Want of memory leaves the others out.
fn note(places: &mut Vec<Place>, text: &str, count: u32)
    requires counted { count ≡ length (chars text.now) }
    requires noted { AreNoted (chars text.now) count (reverse places.old.items) }
    ensures { AreNoted (chars text.now) count (reverse places.new.items) }
{
    let mut last = last_of(places);
    while STEP <= count - last.chars {
        let chars = last.chars + STEP;
        last = Place {
            chars,
            bytes: further(text, last, count, chars),
        };
        if places.push(last).is_err() {
            return;
        }
    }
}

/// Notes a place, unless one is noted less than so many characters before it, or there is no memory for it.
fn put(places: &mut Vec<Place>, place: Place, apart: u32)
    ensures { (places.new.items ≡ places.old.items) ⊎ (places.new.items ≡ places.old.items ++ place ∷ []) }
{
    if let Some(last) = places.last() {
        if place.chars.saturating_sub(last.chars) < apart {
            return;
        }
    }
    let _ = places.push(place);
}

/// Takes the last place out where it is behind so many characters.
fn pop_behind(places: &mut Vec<Place>, at: u32) -> Option<Place>
    ensures shorter { OnSome result (vec_len places.new + 1 ≡ vec_len places.old) }
    ensures noted { (cs : List ℕ) → (upto : ℕ) → AreNoted cs upto (reverse places.old.items)
        → MatchOption result (AreNoted cs at (reverse places.new.items))
        (λ place. (at < place.chars) × (place.chars ≤ upto) × IsPlace cs place
        × AreNoted cs place.chars (reverse places.new.items)) }
{
    match places.last() {
        Some(place) if at < place.chars => places.pop(),
        _ => None,
    }
}

/// Takes the places behind so many characters from one side to the other.
fn spill(from: &mut Vec<Place>, to: &mut Vec<Place>, total: Place, at: u32)
    ensures { (text : List ℕ) → (upto : ℕ) → at ≤ upto → AreSpread text total upto from.old.items to.old.items
        → AreSpread text total at from.new.items to.new.items }
{
    while let Some(place) = pop_behind(from, at) {
        put(to, total.without(place), STEP / 2);
    }
}

/// Takes the places behind so many characters out.
fn shed(places: &mut Vec<Place>, at: u32)
    ensures { (cs : List ℕ) → (upto : ℕ) → AreNoted cs upto (reverse places.old.items)
        → AreNoted cs at (reverse places.new.items) }
{
    while pop_behind(places, at).is_some() {}
}
