//! A run of characters that can be edited: bytes in memory, characters in contracts.

ghost use Rattle.std.specs.Prelude.{◌≡◌, ◌+◌, ◌-◌, ◌≤◌, ◌<◌, ◌++◌, length, take, drop, chars, OnOk, OnErr, IfOk};

use crate::side::{Place, Side, byte_in, move_gap};
use crate::walk::byte_of;
use atspi_base::{NoMemory, Text, TextFault};
use std::alloc::Global;
use std::marker::Model;

/// A run of characters in UTF-8, without U+0000. Contracts see the list of its characters.
#[derive(Drop)]
pub struct Run {
    string: String,
    front: Side,
    back: Side,
}

impl Model for Run {
    ghost use Rattle.std.specs.Prelude.{ℕ, List, chars, string_bytes};
    ghost use Rattle.atspi_faces.specs.Run.{IsRun};

    ghost Value = { List ℕ };

    ghost view = { λ r. chars (string_bytes r.string) };

    ghost invariant = { λ r. IsRun (string_bytes r.string) r.front r.back };
}

impl Run {
    /// The characters of a text. `Err` comes for want of memory.
    pub fn copy_of(alloc: Global, text: &Text) -> Result<Run, NoMemory>
        ensures ok { IfOk result (λ run. run ≡ text.now) }
        ensures counted { IfOk result (λ run. length run < 4294967296) }
    {
        let chars = text.count();
        let text = text.as_str();
        let string = String::from_str(alloc, text)?;
        let bytes = text.len();
        let mut front = Side::new(alloc);
        front.grow(text, Place { chars, bytes });
        Ok(Run {
            string,
            front,
            back: Side::new(alloc),
        })
    }

    /// How many characters there are.
    pub fn count(&self) -> u32
        ensures { result ≡ length self.now }
    {
        self.front.end.chars + self.back.end.chars
    }

    /// The characters from one place up to another. `Err` comes for want of memory.
    pub fn part(&self, alloc: Global, from: u32, to: u32) -> Result<Text, NoMemory>
        requires ordered { from ≤ to }
        requires within { to ≤ length self.now }
        ensures { IfOk result (λ text. text ≡ take (to - from) (drop from self.now)) }
    {
        let start = byte_in(&self.string, &self.front, &self.back, from);
        let rest = &self.string[start..];
        let len = byte_of(rest, self.count() - from, to - from);
        match Text::read(alloc, &rest.as_bytes()[..len]) {
            Ok(text) => Ok(text),
            Err(TextFault::NoMemory) => Err(NoMemory),
            Err(TextFault::Zero(_)) => unreachable!(),
            Err(TextFault::Utf8(_)) => unreachable!(),
        }
    }

    /// Puts a text in at a place. `Err` comes for want of memory, or of room for more bytes than a u32 counts, and
    /// changes nothing.
    pub fn insert(&mut self, at: u32, more: &Text) -> Result<(), NoMemory>
        requires { at ≤ length self.old }
        ensures ok { OnOk result (self.new ≡ take at self.old ++ (more.now ++ drop at self.old)) }
        ensures err { OnErr result (self.new ≡ self.old) }
        ensures counted { length self.new < 4294967296 }
    {
        let text = more.as_str();
        if u32::MAX as usize - self.string.len() < text.len() {
            return Err(NoMemory);
        }
        let start = byte_in(&self.string, &self.front, &self.back, at);
        let chars = at + more.count();
        let bytes = start + text.len();
        if self.string.insert_str(start, text).is_err() {
            return Err(NoMemory);
        }
        let gap = Place {
            chars: at,
            bytes: start,
        };
        move_gap(&mut self.front, &mut self.back, gap);
        self.front
            .grow(&self.string[..bytes], Place { chars, bytes });
        Ok(())
    }

    /// Takes characters out, which needs no memory.
    pub fn delete(&mut self, at: u32, len: u32)
        requires { at + len ≤ length self.old }
        ensures { self.new ≡ take at self.old ++ drop (at + len) self.old }
    {
        let start = byte_in(&self.string, &self.front, &self.back, at);
        let gap = Place {
            chars: at,
            bytes: start,
        };
        move_gap(&mut self.front, &mut self.back, gap);
        let bytes = self.back.byte_behind(&self.string[start..], len);
        let left = self.back.end.without(Place { chars: len, bytes });
        self.back.shorten(left);
        let _ = self.string.replace_range(start..start + bytes, "");
    }
}
