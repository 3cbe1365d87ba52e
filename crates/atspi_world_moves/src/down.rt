//! Bytes come down a link.

ghost use Rattle.std.specs.Prelude.{◌≡◌, ◌<◌, ◌≤◌, ℕ, length, IfOk, OnOk, OnErr};
ghost use Rattle.atspi_stream.specs.Stream.{AwaitsMore};
ghost use Rattle.atspi_bus_steps.specs.InnerBus.{inner_of, state_of};
ghost use Rattle.atspi_bus_steps.specs.Sound.{IsSound};
ghost use Rattle.atspi_world_moves.specs.Filled.{gave, waits_for, FillsAt, GivesAt, IsFilled, IsGiven};
ghost use Rattle.atspi_world_moves.specs.inner.Filled.{IsAwaited};
ghost use Rattle.atspi_world_moves.specs.Linked.{BringsDown};

use crate::carrier::Carrier;
use crate::moving::carry;
use atspi_base::NoMemory;
use atspi_bus_steps::Inner;
use atspi_world_links::Link;

/// Moves some of the bytes that wait for a connection to its end: at most so many, and at most those that its next
/// message awaits. Answers how many.
fn carry_down(bus: &mut Inner, at_end: &mut Link, conn: u32, most: usize) -> Result<usize, NoMemory>
    ensures most { IfOk result (λ count. count ≤ most) }
    ensures state { state_of bus.new ≡ state_of bus.old }
    ensures gives { IfOk result
        (λ count. IsGiven (inner_of bus.old) (inner_of bus.new) at_end.old at_end.new conn count) }
    ensures awaited { IfOk result (λ count. IsAwaited at_end.old count) }
    ensures some { IfOk result
        (λ count. 0 < most → 0 < length (waits_for (inner_of bus.old) conn) → AwaitsMore at_end.old → 0 < count) }
    ensures err { OnErr result ((inner_of bus.new ≡ inner_of bus.old) × (at_end.new ≡ at_end.old)) }
{
    let most = most.min(bus.waiting(conn) as usize);
    let count = carry(bus.front(conn), at_end, most)?;
    bus.pop(conn, count as u32);
    Ok(count)
}

/// Moves the bytes that wait for a connection to its end until a message is whole there, so many are moved, or none
/// wait. Answers how many.
fn fill(bus: &mut Inner, at_end: &mut Link, conn: u32, most: usize) -> Result<usize, NoMemory>
    ensures most { IfOk result (λ count. count ≤ most) }
    ensures state { state_of bus.new ≡ state_of bus.old }
    ensures filled { IfOk result
        (λ count. IsFilled (inner_of bus.old) (inner_of bus.new) at_end.old at_end.new conn most count) }
    ensures part { OnErr result
        ((count : ℕ) × IsGiven (inner_of bus.old) (inner_of bus.new) at_end.old at_end.new conn count) }
{
    let mut left = most;
    'pieces: loop {
        let count = carry_down(bus, at_end, conn, left)?;
        if count == 0 {
            return Ok(most - left);
        }
        left -= count;
    }
}

impl Carrier {
    /// Moves the bytes that wait for a connection to its end until a message is whole there, so many are moved, or none
    /// wait. Answers how many. After want of memory some were moved, in order, and none is lost.
    pub fn fill(&mut self, conn: u32, most: usize) -> Result<usize, NoMemory>
        requires sound { IsSound (state_of self.old.bus) }
        ensures sound { IsSound (state_of self.new.bus) }
        ensures most { IfOk result (λ count. count ≤ most) }
        ensures trace { self.new.trace ≡ self.old.trace }
        ensures posts { self.new.posts ≡ self.old.posts }
        ensures bus { IfOk result (λ count. inner_of self.new.bus ≡ gave (inner_of self.old.bus) conn count) }
        ensures filled { IfOk result
            (λ count. FillsAt (inner_of self.old.bus) (inner_of self.new.bus) self.old.at_end.items
            self.new.at_end.items conn most count) }
        ensures brings { IfOk result
            (λ count. BringsDown (inner_of self.old.bus) (inner_of self.new.bus) self.old.posts.items
            self.old.at_end.items self.new.at_end.items conn most count) }
        ensures part { OnErr result
            (GivesAt (inner_of self.old.bus) (inner_of self.new.bus) self.old.at_end.items self.new.at_end.items conn) }
    {
        let place = conn as usize;
        if place >= self.at_end.len() {
            return Ok(0);
        }
        fill(&mut self.bus, &mut self.at_end[place], conn, most)
    }
}
