//! Lists of block numbers, linked inside one table: one of free blocks, and one for each chain.

ghost use Rattle.std.specs.Prelude.{◌≡◌, ◌+◌, ◌<◌, ◌≤◌, ℕ, [], ◌∷◌, ◌++◌, length, slice_index, true, false, IfOk, OnOk};
ghost use Rattle.std.specs.Prelude.{OnErr};
ghost use Rattle.std.specs.Bool.{MatchBool};
ghost use Rattle.atspi_pool.specs.Links.{entry_at, first_of, last_of, taken, front_given, front_kept, marked};
ghost use Rattle.atspi_pool.specs.Links.{with_blocks, IsApart};
ghost use Rattle.atspi_pool.specs.Walk.{walk};

use crate::run::{Marks, Run};
use atspi_base::NoMemory;
use std::alloc::Global;
use std::marker::Model;

/// The links of all blocks. A block's place in the table has the number of the block behind it, if there is one.
#[derive(Drop)]
pub struct Links {
    next: Vec<usize>,
    first_free: usize,
    free: usize,
    runs: Vec<Run>,
}

impl Model for Links {
    ghost use Rattle.atspi_pool.specs.Links.{Linked};
    ghost use Rattle.atspi_pool.specs.Walk.{linked_of, IsLinked};

    ghost Value = { Linked };

    ghost view = { λ l. linked_of l.next.items l.first_free l.free l.runs.items };

    ghost invariant = { λ l. IsLinked l.next.items l.first_free l.free l.runs.items };
}

impl Links {
    /// No block and no chain.
    pub fn new(alloc: Global) -> Links
        ensures { result ≡ record { made = 0; unused = []; chains = [] } }
    {
        Links {
            next: Vec::new(alloc),
            first_free: 0,
            free: 0,
            runs: Vec::new(alloc),
        }
    }

    /// The same links.
    pub fn copy(&self, alloc: Global) -> Result<Links, NoMemory>
        ensures { IfOk result (λ copy. copy ≡ self.now) }
    {
        Ok(Links {
            next: self.next.to_vec(alloc)?,
            first_free: self.first_free,
            free: self.free,
            runs: self.runs.to_vec(alloc)?,
        })
    }

    /// How many blocks were made.
    pub fn made(&self) -> usize
        ensures { result ≡ self.now.made }
    {
        self.next.len()
    }

    /// How many chains there are.
    pub fn chains(&self) -> usize
        ensures { result ≡ length self.now.chains }
    {
        self.runs.len()
    }

    /// How many blocks are free.
    pub fn free(&self) -> usize
        ensures free { result ≡ length self.now.unused }
        ensures apart { IsApart self.now }
    {
        self.free
    }

    /// What stands in a chain beside its blocks.
    pub fn marks(&self, chain: usize) -> Marks
        requires { chain < length self.now.chains }
        ensures marks { result ≡ (entry_at self.now chain).marks }
        ensures apart { IsApart self.now }
    {
        self.runs[chain].marks
    }

    /// The first block of a chain.
    pub fn first(&self, chain: usize) -> usize
        requires chain { chain < length self.now.chains }
        requires nonempty { 0 < length (entry_at self.now chain).blocks }
        ensures first { result ≡ first_of (entry_at self.now chain).blocks }
        ensures apart { IsApart self.now }
    {
        self.runs[chain].first
    }

    /// A new chain without blocks, behind the others. After want of memory all is as before.
    pub fn add_chain(&mut self, marks: Marks) -> Result<(), NoMemory>
        ensures ok { OnOk result
            (self.new ≡ record self.old { chains = self.old.chains ++ record { marks = marks; blocks = [] } ∷ [] }) }
        ensures err { OnErr result (self.new ≡ self.old) }
    {
        self.runs.push(Run {
            first: 0,
            last: 0,
            count: 0,
            marks,
        })?;
        Ok(())
    }

    /// A new block, free. After want of memory all is as before.
    pub fn add_block(&mut self) -> Result<(), NoMemory>
        ensures ok { OnOk result
            (self.new ≡ record self.old { made = self.old.made + 1; unused = self.old.made ∷ self.old.unused }) }
        ensures err { OnErr result (self.new ≡ self.old) }
        ensures apart { IsApart self.old }
    {
        let block = self.next.len();
        self.next.push(self.first_free)?;
        self.first_free = block;
        self.free += 1;
        Ok(())
    }

    /// Writes what stands in a chain beside its blocks.
    pub fn set_marks(&mut self, chain: usize, marks: Marks)
        requires { chain < length self.old.chains }
        ensures { self.new ≡ marked self.old chain marks }
    {
        self.runs[chain].marks = marks;
    }

    /// Links the first free block behind the blocks of a chain.
    pub fn take(&mut self, chain: usize)
        requires chain { chain < length self.old.chains }
        requires free { 0 < length self.old.unused }
        ensures { self.new ≡ taken self.old chain }
    {
        if self.runs[chain].count == 0 {
            self.take_first(chain);
        } else {
            self.take_next(chain);
        }
    }

    fn take_first(&mut self, chain: usize)
        requires chain { chain < length self.old.chains }
        requires empty { length (entry_at self.old chain).blocks ≡ 0 }
        requires free { 0 < length self.old.unused }
        ensures { self.new ≡ taken self.old chain }
    {
        let block = self.first_free;
        self.first_free = self.next[block];
        self.free -= 1;
        let run = &mut self.runs[chain];
        *run = Run {
            first: block,
            last: block,
            count: 1,
            marks: run.marks,
        };
    }

    fn take_next(&mut self, chain: usize)
        requires chain { chain < length self.old.chains }
        requires nonempty { 0 < length (entry_at self.old chain).blocks }
        requires free { 0 < length self.old.unused }
        ensures { self.new ≡ taken self.old chain }
    {
        let run = self.runs[chain];
        let block = self.first_free;
        self.first_free = self.next[block];
        self.free -= 1;
        self.next[run.last] = block;
        self.runs[chain] = Run {
            first: run.first,
            last: block,
            count: run.count + 1,
            marks: run.marks,
        };
    }

    /// The last block of a chain, behind which the first free block is linked before where the last one is full.
    pub fn tail(&mut self, chain: usize, is_full: bool) -> usize
        requires chain { chain < length self.old.chains }
        requires free { is_full ≡ true → 0 < length self.old.unused }
        requires nonempty { is_full ≡ false → 0 < length (entry_at self.old chain).blocks }
        ensures links { MatchBool is_full (self.new ≡ taken self.old chain) (self.new ≡ self.old) }
        ensures block { result ≡ last_of (entry_at self.new chain).blocks }
        ensures apart { IsApart self.new }
    {
        if is_full {
            self.take(chain);
            return self.last(chain);
        }
        self.last(chain)
    }

    /// The last block of a chain.
    fn last(&self, chain: usize) -> usize
        requires chain { chain < length self.now.chains }
        requires nonempty { 0 < length (entry_at self.now chain).blocks }
        ensures block { result ≡ last_of (entry_at self.now chain).blocks }
        ensures apart { IsApart self.now }
    {
        self.runs[chain].last
    }

    /// The block at a place of a chain: the last one at once, any other by a walk from the first on.
    pub fn at(&self, chain: usize, place: usize) -> usize
        requires chain { chain < length self.now.chains }
        requires place { place < length (entry_at self.now chain).blocks }
        ensures block { result ≡ slice_index (entry_at self.now chain).blocks place }
        ensures apart { IsApart self.now }
    {
        let run = &self.runs[chain];
        if place + 1 == run.count {
            return run.last;
        }
        walk_on(&self.next, run.first, place)
    }

    /// Gives the first blocks of a chain back. This costs a walk over them, and nothing where they are all.
    pub fn give_front(&mut self, chain: usize, count: usize)
        requires chain { chain < length self.old.chains }
        requires in_chain { count ≤ length (entry_at self.old chain).blocks }
        ensures links { self.new ≡ front_given self.old chain count }
        ensures apart { IsApart self.old }
    {
        let _ = &self.next;
        if 0 < count {
            self.give_some(chain, count);
        }
    }

    /// Gives all blocks of a chain back.
    pub fn give_all(&mut self, chain: usize)
        requires { chain < length self.old.chains }
        ensures { self.new ≡ with_blocks self.old ((entry_at self.old chain).blocks ++ self.old.unused) chain [] }
    {
        let count = self.runs[chain].count;
        self.give_front(chain, count);
    }

    fn give_some(&mut self, chain: usize, count: usize)
        requires chain { chain < length self.old.chains }
        requires some { 0 < count }
        requires in_chain { count ≤ length (entry_at self.old chain).blocks }
        ensures links { self.new ≡ front_given self.old chain count }
        ensures apart { IsApart self.old }
    {
        let last = self.at(chain, count - 1);
        let run = self.runs[chain];
        let behind = self.next[last];
        self.next[last] = self.first_free;
        self.first_free = run.first;
        self.free += count;
        self.runs[chain] = Run {
            first: behind,
            last: run.last,
            count: run.count - count,
            marks: run.marks,
        };
    }

    /// Keeps the first blocks of a chain, at least one, and gives the others back. This costs a walk over those that
    /// are kept, and nothing where they are all.
    pub fn keep_front(&mut self, chain: usize, count: usize)
        requires chain { chain < length self.old.chains }
        requires some { 0 < count }
        requires in_chain { count ≤ length (entry_at self.old chain).blocks }
        ensures links { self.new ≡ front_kept self.old chain count }
        ensures apart { IsApart self.old }
    {
        if count < self.runs[chain].count {
            self.keep_some(chain, count);
        }
    }

    fn keep_some(&mut self, chain: usize, count: usize)
        requires chain { chain < length self.old.chains }
        requires some { 0 < count }
        requires in_chain { count < length (entry_at self.old chain).blocks }
        ensures links { self.new ≡ front_kept self.old chain count }
        ensures apart { IsApart self.old }
    {
        let last = self.at(chain, count - 1);
        let run = self.runs[chain];
        let behind = self.next[last];
        self.next[run.last] = self.first_free;
        self.first_free = behind;
        self.free += run.count - count;
        self.runs[chain] = Run {
            first: run.first,
            last,
            count,
            marks: run.marks,
        };
    }
}

/// The block so many links behind this one.
fn walk_on(next: &[usize], from: usize, count: usize) -> usize
    requires { (k : ℕ) → k < count → slice_index (walk next.now from count) k < length next.now }
    ensures { result ≡ slice_index (walk next.now from (count + 1)) count }
{
    let mut block = from;
    for _ in 0..count {
        block = next[block];
    }
    block
}
