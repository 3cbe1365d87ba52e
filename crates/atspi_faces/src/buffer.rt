//! Bytes with a gap between them, so that what is put in or taken out at the gap moves no other byte.

ghost use Rattle.std.specs.Prelude.{◌≡◌, ◌+◌, ◌≤◌, ◌++◌, [], length, take, drop, OnOk, OnErr, IfOk};

use atspi_base::NoMemory;
use std::alloc::Global;
use std::marker::Model;

/// Bytes with a gap: contracts see those before it and those behind it.
#[derive(Drop)]
pub struct Buffer {
    bytes: Vec<u8>,
    start: usize,
    end: usize,
}

impl Model for Buffer {
    ghost use Rattle.std.specs.Prelude.{ℕ, List, ◌≤◌, length, take, drop};

    ghost Value = { List ℕ × List ℕ };

    ghost view = { λ b. (take b.start b.bytes.items, drop b.end b.bytes.items) };

    ghost invariant = { λ b. (b.start ≤ b.end) × (b.end ≤ length b.bytes.items) };
}

impl Buffer {
    /// The bytes before an empty gap.
    pub fn copy_of(alloc: Global, bytes: &[u8]) -> Result<Buffer, NoMemory>
        ensures front { IfOk result (λ b. b.0 ≡ bytes.now) }
        ensures back { IfOk result (λ b. b.1 ≡ []) }
    {
        Ok(Buffer {
            bytes: bytes.to_vec(alloc)?,
            start: bytes.len(),
            end: bytes.len(),
        })
    }

    /// The bytes before the gap.
    pub fn front(&self) -> &[u8]
        ensures { result.now ≡ self.now.0 }
    {
        &self.bytes[..self.start]
    }

    /// The bytes behind the gap.
    pub fn back(&self) -> &[u8]
        ensures { result.now ≡ self.now.1 }
    {
        &self.bytes[self.end..]
    }

    /// Moves the gap to a place before it.
    pub fn move_left(&mut self, at: usize)
        requires { at ≤ length self.old.0 }
        ensures front { self.new.0 ≡ take at self.old.0 }
        ensures back { self.new.1 ≡ drop at self.old.0 ++ self.old.1 }
    {
        let len = self.start - at;
        self.bytes.copy_within(at..self.start, self.end - len);
        self.start = at;
        self.end -= len;
    }

    /// Moves the gap behind the bytes that follow it.
    pub fn move_right(&mut self, len: usize)
        requires { len ≤ length self.old.1 }
        ensures front { self.new.0 ≡ self.old.0 ++ take len self.old.1 }
        ensures back { self.new.1 ≡ drop len self.old.1 }
    {
        self.bytes.copy_within(self.end..self.end + len, self.start);
        self.start += len;
        self.end += len;
    }

    /// Puts bytes in before the gap. After want of memory nothing was put in.
    pub fn put(&mut self, alloc: Global, bytes: &[u8]) -> Result<(), NoMemory>
        ensures front { OnOk result (self.new.0 ≡ self.old.0 ++ bytes.now) }
        ensures back { self.new.1 ≡ self.old.1 }
        ensures err { OnErr result (self.new.0 ≡ self.old.0) }
    {
        if self.end - self.start < bytes.len() {
            return self.put_wider(alloc, bytes);
        }
        overwrite(&mut self.bytes, self.start, bytes);
        self.start += bytes.len();
        Ok(())
    }

    /// Puts bytes in before the gap, which is made wider for them.
    fn put_wider(&mut self, alloc: Global, bytes: &[u8]) -> Result<(), NoMemory>
        ensures front { OnOk result (self.new.0 ≡ self.old.0 ++ bytes.now) }
        ensures back { self.new.1 ≡ self.old.1 }
        ensures err { OnErr result (self.new.0 ≡ self.old.0) }
    {
        let (mut wider, end) = widened(alloc, &self.bytes, self.start, self.end, bytes.len())?;
        overwrite(&mut wider, self.start, bytes);
        self.bytes = wider;
        self.start += bytes.len();
        self.end = end;
        Ok(())
    }

    /// Takes out bytes that follow the gap.
    pub fn cut(&mut self, len: usize)
        requires { len ≤ length self.old.1 }
        ensures front { self.new.0 ≡ self.old.0 }
        ensures back { self.new.1 ≡ drop len self.old.1 }
    {
        self.end += len;
    }
}

/// The same bytes round a gap that has room for so many, and where it ends. The bytes are doubled, so that what is put
/// in bit by bit is moved a few times only.
fn widened(
    alloc: Global,
    bytes: &[u8],
    start: usize,
    end: usize,
    room: usize,
) -> Result<(Vec<u8>, usize), NoMemory>
    requires ordered { start ≤ end }
    requires within { end ≤ length bytes.now }
    ensures front { IfOk result (λ r. take start r.0.items ≡ take start bytes.now) }
    ensures back { IfOk result (λ r. drop r.1 r.0.items ≡ drop end bytes.now) }
    ensures wide { IfOk result (λ r. start + room ≤ r.1) }
    ensures end { IfOk result (λ r. r.1 ≤ length r.0.items) }
{
    let back = bytes.len() - end;
    let Some(gap) = room.checked_add(bytes.len()) else {
        return Err(NoMemory);
    };
    let Some(new_end) = start.checked_add(gap) else {
        return Err(NoMemory);
    };
    let Some(total) = new_end.checked_add(back) else {
        return Err(NoMemory);
    };
    let mut wider = vec![in alloc; 0u8; total]?;
    overwrite(&mut wider, 0, &bytes[..start]);
    overwrite(&mut wider, new_end, &bytes[end..]);
    Ok((wider, new_end))
}

/// Writes over the bytes from a place on.
fn overwrite(bytes: &mut Vec<u8>, at: usize, with: &[u8])
    requires { at + length with.now ≤ length bytes.old.items }
    ensures { bytes.new.items ≡ take at bytes.old.items ++ (with.now ++ drop (at + length with.now) bytes.old.items) }
{
    bytes[at..at + with.len()].copy_from_slice(with);
}
