//! The peer at the other end of a link in memory.

ghost use Rattle.std.specs.Prelude.{◌<◌, ℕ, length};
ghost use Rattle.atspi_live_host.specs.Calls.{Moves, Counts};

use crate::Did;
use std::collections::VecDeque;

/// How many bytes are moved in one call at the most.
const PIECE: usize = 4096;

/// A peer: what it sends, a piece for each read, and whether it ends behind that. A piece without bytes is a read that
/// finds nothing ready; one that is longer than the room, or than 4,096 bytes, is sent in as many reads as it takes.
/// All that is written is taken.
#[derive(Drop)]
pub struct Peer {
    pieces: VecDeque<Vec<u8>>,
    /// How many bytes of the first piece were sent.
    sent: usize,
    ends: bool,
}

impl Peer {
    /// A peer that sends these pieces, the first first.
    pub fn new(pieces: VecDeque<Vec<u8>>, ends: bool) -> Peer {
        Peer {
            pieces,
            sent: 0,
            ends,
        }
    }

    /// What is sent where no piece is left.
    fn rest(&self) -> Did
        ensures moves { (most : ℕ) → Moves most result }
        ensures no_fault { (n : ℕ) → Counts n n result }
    {
        if self.ends { Did::End } else { Did::NotYet }
    }

    /// Moves some of what is sent next to the front of `into`.
    pub(crate) fn send(&mut self, into: &mut [u8]) -> Did
        requires { 0 < length into.old }
        ensures moves { Moves (length into.old) result }
        ensures no_fault { (n : ℕ) → Counts n n result }
    {
        let Some(piece) = self.pieces.front() else {
            return self.rest();
        };
        let at = self.sent.min(piece.len());
        let left = piece.len() - at;
        let n = left.min(into.len()).min(PIECE);
        if n > 0 {
            let (front, _) = into.split_at_mut(n);
            front.copy_from_slice(&piece[at..at + n]);
        }
        if n == left {
            let _ = self.pieces.pop_front();
            self.sent = 0;
        } else {
            self.sent = at + n;
        }
        if n == 0 {
            return Did::NotYet;
        }
        Did::Done(n as u32)
    }
}
