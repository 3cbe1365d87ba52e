//! A text in one buffer with a gap at the last place of change.

ghost use Rattle.std.specs.Prelude.{◌≡◌, ◌+◌, ◌-◌, ◌≤◌, ◌<◌, ◌++◌, length, take, drop, chars, OnOk, OnErr, IfOk};
ghost use Rattle.std.specs.Prelude.{IsUtf8};
ghost use Rattle.atspi_base.specs.Text.{HasNoZero};
ghost use Rattle.atspi_base.specs.Places.{CutAt};
ghost use Rattle.atspi_faces.specs.Gap.{text_of, IsPart, AreKept};

use crate::buffer::Buffer;
use crate::side::{Place, Side, move_gap};
use crate::walk::byte_of;
use atspi_base::{NoMemory, Text, TextFault};
use std::alloc::Global;
use std::marker::Model;
use std::str::from_utf8_unchecked;

/// A text in UTF-8, without U+0000, with a gap at the last place of change: a change there costs what is put in or
/// taken out. Contracts see the list of its characters.
#[derive(Drop)]
pub struct Gap {
    buffer: Buffer,
    front: Side,
    back: Side,
}

impl Model for Gap {
    ghost use Rattle.std.specs.Prelude.{ℕ, List};
    ghost use Rattle.atspi_faces.specs.Gap.{text_of, AreKept};

    ghost Value = { List ℕ };

    ghost view = { λ g. text_of g.buffer };

    ghost invariant = { λ g. AreKept g.buffer g.front g.back };
}

/// Bytes that are known to be UTF-8, as a text.
fn as_text(bytes: &[u8]) -> &str
    requires { IsUtf8 bytes.now }
    ensures { result.now ≡ bytes.now }
{
    // SAFETY: the bytes are UTF-8, by what is required.
    unsafe { from_utf8_unchecked(bytes) }
}

/// Moves the gap to the character at a place.
fn go_to(buffer: &mut Buffer, front: &mut Side, back: &mut Side, at: u32)
    requires kept { AreKept buffer.old front.old back.old }
    requires within { at ≤ front.old.end.chars + back.old.end.chars }
    ensures kept { AreKept buffer.new front.new back.new }
    ensures at { front.new.end.chars ≡ at }
    ensures front { chars buffer.new.0 ≡ take at (text_of buffer.old) }
    ensures back { chars buffer.new.1 ≡ drop at (text_of buffer.old) }
    ensures bytes { length buffer.new.0 + length buffer.new.1 ≡ length buffer.old.0 + length buffer.old.1 }
{
    let gap = front.end;
    if at <= gap.chars {
        let bytes = front.byte_of(as_text(buffer.front()), at);
        move_gap(front, back, Place { chars: at, bytes });
        buffer.move_left(bytes);
    } else {
        let len = back.byte_behind(as_text(buffer.back()), at - gap.chars);
        let bytes = gap.bytes + len;
        move_gap(front, back, Place { chars: at, bytes });
        buffer.move_right(len);
    }
}

impl Gap {
    /// The characters of a text. `Err` comes for want of memory.
    pub fn copy_of(alloc: Global, text: &Text) -> Result<Gap, NoMemory>
        ensures ok { IfOk result (λ gap. gap ≡ text.now) }
        ensures counted { IfOk result (λ gap. length gap < 4294967296) }
    {
        let chars = text.count();
        let text = text.as_str();
        let buffer = Buffer::copy_of(alloc, text.as_bytes())?;
        let bytes = text.len();
        let mut front = Side::new(alloc);
        front.grow(text, Place { chars, bytes });
        Ok(Gap {
            buffer,
            front,
            back: Side::new(alloc),
        })
    }

    /// How many characters there are.
    pub fn count(&self) -> u32
        ensures { result ≡ length self.now }
    {
        self.front.end.chars + self.back.end.chars
    }

    /// The characters from one place up to another. `Err` comes for want of memory.
    pub fn part(&self, alloc: Global, from: u32, to: u32) -> Result<Text, NoMemory>
        requires ordered { from ≤ to }
        requires within { to ≤ length self.now }
        ensures { IfOk result (λ text. text ≡ take (to - from) (drop from self.now)) }
    {
        let before = self.front.end.chars;
        let (front, back) = (self.buffer.front(), self.buffer.back());
        let at = from.min(before);
        let start = self.front.byte_of(as_text(front), at);
        let front = piece(front, before, at, start, to.min(before));
        let at = from.saturating_sub(before);
        let start = self.back.byte_behind(as_text(back), at);
        let back = piece(
            back,
            self.back.end.chars,
            at,
            start,
            to.saturating_sub(before),
        );
        let mut bytes = Vec::with_capacity(alloc, front.len() + back.len())?;
        bytes.extend_from_slice(front)?;
        bytes.extend_from_slice(back)?;
        match Text::read(alloc, &bytes) {
            Ok(text) => Ok(text),
            Err(TextFault::NoMemory) => Err(NoMemory),
            Err(TextFault::Zero(_)) => unreachable!(),
            Err(TextFault::Utf8(_)) => unreachable!(),
        }
    }

    /// Puts a text in at a place. `Err` comes for want of memory, or of room for more bytes than a u32 counts, and
    /// changes nothing.
    pub fn insert(&mut self, alloc: Global, at: u32, more: &Text) -> Result<(), NoMemory>
        requires { at ≤ length self.old }
        ensures ok { OnOk result (self.new ≡ take at self.old ++ (more.now ++ drop at self.old)) }
        ensures err { OnErr result (self.new ≡ self.old) }
        ensures counted { length self.new < 4294967296 }
    {
        let text = more.as_str();
        let len = self.buffer.front().len() + self.buffer.back().len();
        if u32::MAX as usize - len < text.len() {
            return Err(NoMemory);
        }
        let count = more.count();
        go_to(&mut self.buffer, &mut self.front, &mut self.back, at);
        self.buffer.put(alloc, text.as_bytes())?;
        let front = as_text(self.buffer.front());
        let bytes = front.len();
        let chars = at + count;
        self.front.grow(front, Place { chars, bytes });
        Ok(())
    }

    /// Takes characters out, which needs no memory.
    pub fn delete(&mut self, at: u32, len: u32)
        requires { at + len ≤ length self.old }
        ensures { self.new ≡ take at self.old ++ drop (at + len) self.old }
    {
        go_to(&mut self.buffer, &mut self.front, &mut self.back, at);
        let bytes = self.back.byte_behind(as_text(self.buffer.back()), len);
        let left = self.back.end.without(Place { chars: len, bytes });
        self.back.shorten(left);
        self.buffer.cut(bytes);
    }
}

/// The bytes of the characters from one place, whose byte is known, up to another.
fn piece(bytes: &[u8], count: u32, from: u32, start: usize, to: u32) -> &[u8]
    requires part { IsPart bytes.now count }
    requires start { CutAt bytes.now from start }
    requires ordered { from ≤ to }
    requires within { to ≤ count }
    ensures utf8 { IsUtf8 result.now }
    ensures no_zero { HasNoZero result.now }
    ensures chars { chars result.now ≡ take (to - from) (drop from (chars bytes.now)) }
    ensures len { length result.now ≤ length bytes.now }
{
    let rest = &bytes[start..];
    let len = byte_of(as_text(rest), count - from, to - from);
    &rest[..len]
}
