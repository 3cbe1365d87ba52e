//! The input of an application: read to its end, and then line by line.

ghost use Rattle.std.specs.Prelude.{◌≡◌, ◌≤◌, [], length, IfOk};
ghost use Rattle.atspi_live_app.specs.Input.{HasRead};
ghost use Rattle.atspi_live_app.specs.inner.Input.{Blames, NextAsk};

use crate::asking::{Ask, ask_of};
use crate::lines::line_end;
use atspi_base::{NoMemory, Source};
use atspi_script_lines::LineFault;
use std::alloc::Global;

/// The longest input, in bytes.
pub const INPUT_LIMIT: usize = 16_777_216;

/// How the reading of an input ended.
#[derive(Clone, Copy, Debug, PartialEq, Eq)]
pub enum End {
    /// The source has no more.
    Whole,
    /// The source gave more than the limit.
    TooLong,
    /// The source failed.
    Failed,
}

/// Reads the source to its end, or to the limit.
pub(crate) fn read_all<S: Source>(source: &mut S, text: &mut Vec<u8>) -> Result<End, NoMemory>
    requires { text.old.items ≡ [] }
    ensures read { IfOk result (λ end. HasRead end (S.left source.old) (S.left source.new) text.new.items) }
    ensures limit { IfOk result (λ _. length text.new.items ≤ INPUT_LIMIT) }
    ensures cause { Blames result (S.faults source.old) (S.faults source.new) }
    ensures later { S.faults source.old ≤ S.faults source.new }
{
    let mut chunk = [0u8; 4096];
    loop {
        let Ok(n) = source.read(&mut chunk) else {
            return Ok(End::Failed);
        };
        if n == 0 {
            return Ok(End::Whole);
        }
        let room = INPUT_LIMIT - text.len();
        if n > room {
            text.extend_from_slice(&chunk[..room])?;
            return Ok(End::TooLong);
        }
        text.extend_from_slice(&chunk[..n])?;
    }
}

/// The lines of an input that are still to come.
#[derive(Drop)]
pub(crate) struct Input {
    pub(crate) text: Vec<u8>,
    /// Where the next line begins.
    pub(crate) at: usize,
    /// How many lines stand before it.
    pub(crate) number: u64,
}

impl Input {
    /// All lines of this text.
    pub(crate) fn new(text: Vec<u8>) -> Input
        ensures text { result.text.items ≡ text.items }
        ensures at { result.at ≡ 0 }
        ensures number { result.number ≡ 0 }
    {
        Input {
            text,
            at: 0,
            number: 0,
        }
    }

    /// What the next line asks for, which is then passed. None where no line is left.
    pub(crate) fn next(&mut self, alloc: Global) -> Option<Result<Ask, LineFault>>
        ensures next { NextAsk result self.old.text.items self.old.at self.old.number self.new.text.items self.new.at
            self.new.number }
    {
        if self.at >= self.text.len() {
            return None;
        }
        let left = &self.text[self.at..];
        let end = line_end(left);
        let asked = ask_of(alloc, &left[..end]);
        self.at = self.at + end + 1;
        self.number = self.number.saturating_add(1);
        Some(asked)
    }
}
