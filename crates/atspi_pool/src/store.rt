//! Chains of bytes in blocks of 256 bytes, by their numbers.

ghost use Rattle.std.specs.Prelude.{◌≡◌, ◌+◌, ◌-◌, ◌<◌, ◌≤◌, ◌^◌, ℕ, [], ◌∷◌, ◌++◌, length, min, max, true, None, Some};
ghost use Rattle.std.specs.Prelude.{IsSome, IfOk, OnOk, OnErr};
ghost use Rattle.atspi_pool.specs.Chains.{empty_chain, blocks_of, front_of, room_in, popped_by, cut_by};
ghost use Rattle.atspi_pool.specs.Store.{chain_at, held, with_chain, with_pushed, all_blocks, written, HasFront};

use crate::links::Links;
use crate::run::Marks;
use atspi_base::NoMemory;
use std::alloc::Global;
use std::marker::Model;

/// The bytes of a block.
const BLOCK: usize = 256;

/// An empty chain, in use.
const EMPTY: Marks = Marks {
    is_used: true,
    popped: 0,
    len: 0,
};

/// A chain that is not in use.
const UNUSED: Marks = Marks {
    is_used: false,
    popped: 0,
    len: 0,
};

/// All chains, in use or not, and the bytes of all blocks, one block behind the other.
#[derive(Drop)]
pub struct Store {
    links: Links,
    bytes: Vec<u8>,
}

impl Model for Store {
    ghost use Rattle.atspi_pool.specs.Store as store;

    ghost Value = { store.Store };

    ghost view = { λ s. store.store_of s.bytes.items s.links };

    ghost invariant = { λ s. store.IsStore s.bytes.items s.links };
}

impl Store {
    /// No block and no chain.
    pub fn new(alloc: Global) -> Store
        ensures { result ≡ record { made = 0; chains = [] } }
    {
        Store {
            links: Links::new(alloc),
            bytes: Vec::new(alloc),
        }
    }

    /// Equal chains.
    pub fn copy(&self, alloc: Global) -> Result<Store, NoMemory>
        ensures { IfOk result (λ copy. copy ≡ self.now) }
    {
        Ok(Store {
            links: self.links.copy(alloc)?,
            bytes: self.bytes.to_vec(alloc)?,
        })
    }

    /// How many blocks were made.
    pub fn made(&self) -> usize
        ensures { result ≡ self.now.made }
    {
        self.links.made()
    }

    /// How many chains there are, in use or not.
    pub fn chains(&self) -> usize
        ensures { result ≡ length self.now.chains }
    {
        self.links.chains()
    }

    /// How many blocks are free.
    pub fn free(&self) -> usize
        ensures free { result + all_blocks self.now.chains ≡ self.now.made }
        ensures fronts { (q : ℕ) → HasFront (chain_at self.now q) }
    {
        self.links.free()
    }

    /// How many bytes a chain has.
    pub fn len(&self, chain: usize) -> usize
        requires { chain < length self.now.chains }
        ensures len { result ≡ length (held (chain_at self.now chain)).bytes }
        ensures small { result < 2 ^ 32 }
    {
        self.links.marks(chain).len
    }

    /// The bytes of the first block of a chain.
    pub fn front(&self, chain: usize) -> &[u8]
        requires { chain < length self.now.chains }
        ensures bytes { result.now ≡ front_of (held (chain_at self.now chain)) }
        ensures some { 0 < length (held (chain_at self.now chain)).bytes → 0 < length result.now }
    {
        let marks = self.links.marks(chain);
        if marks.len == 0 {
            return &[];
        }
        let start = BLOCK * self.links.first(chain);
        let end = start + BLOCK.min(marks.popped + marks.len);
        &self.bytes[start + marks.popped..end]
    }

    /// A new chain behind the others, empty and in use. After want of memory all is as before.
    pub fn add_chain(&mut self) -> Result<(), NoMemory>
        ensures ok { OnOk result
            (self.new ≡ record self.old { chains = self.old.chains ++ Some empty_chain ∷ [] }) }
        ensures err { OnErr result (self.new ≡ self.old) }
    {
        self.links.add_chain(EMPTY)
    }

    /// The number of a chain that is not in use comes into use, for an empty one.
    pub fn open(&mut self, chain: usize)
        requires chain { chain < length self.old.chains }
        requires unused { chain_at self.old chain ≡ None }
        ensures { self.new ≡ with_chain self.old chain (Some empty_chain) }
    {
        self.links.set_marks(chain, EMPTY);
    }

    /// The blocks of a chain become free, and its number is not in use any more.
    pub fn close(&mut self, chain: usize)
        requires { chain < length self.old.chains }
        ensures { self.new ≡ with_chain self.old chain None }
    {
        self.links.give_all(chain);
        self.links.set_marks(chain, UNUSED);
    }

    /// Drops all bytes of a chain.
    fn clear(&mut self, chain: usize)
        requires { chain < length self.old.chains }
        ensures { self.new ≡ with_chain self.old chain (Some empty_chain) }
    {
        self.links.give_all(chain);
        self.links.set_marks(chain, EMPTY);
    }

    /// Drops the first bytes of a chain.
    pub fn pop(&mut self, chain: usize, n: usize)
        requires chain { chain < length self.old.chains }
        requires used { IsSome (chain_at self.old chain) }
        requires bytes { n ≤ length (held (chain_at self.old chain)).bytes }
        ensures { self.new ≡ with_chain self.old chain (Some (popped_by (held (chain_at self.old chain)) n)) }
    {
        let marks = self.links.marks(chain);
        if marks.len == n {
            return self.clear(chain);
        }
        let gone = marks.popped + n;
        self.links.give_front(chain, gone / BLOCK);
        self.links.set_marks(
            chain,
            Marks {
                is_used: true,
                popped: gone % BLOCK,
                len: marks.len - n,
            },
        );
    }

    /// Drops the last bytes of a chain.
    pub fn cut_back(&mut self, chain: usize, n: usize)
        requires chain { chain < length self.old.chains }
        requires used { IsSome (chain_at self.old chain) }
        requires bytes { n ≤ length (held (chain_at self.old chain)).bytes }
        ensures { self.new ≡ with_chain self.old chain (Some (cut_by (held (chain_at self.old chain)) n)) }
    {
        let marks = self.links.marks(chain);
        if marks.len == n {
            return self.clear(chain);
        }
        let len = marks.len - n;
        self.links
            .keep_front(chain, (marks.popped + len).div_ceil(BLOCK));
        self.links.set_marks(
            chain,
            Marks {
                is_used: true,
                popped: marks.popped,
                len,
            },
        );
    }

    /// How many bytes fit into the last block of a chain, or into a new one where that is full.
    pub fn room(&self, chain: usize) -> usize
        requires { chain < length self.now.chains }
        ensures some { 0 < result }
        ensures in_block { result ≡ room_in (held (chain_at self.now chain)) }
    {
        let marks = self.links.marks(chain);
        BLOCK - (marks.popped + marks.len) % BLOCK
    }

    /// Appends bytes that fit into the last block of a chain, or into a new one where that is full.
    pub fn append(&mut self, chain: usize, piece: &[u8])
        requires chain { chain < length self.old.chains }
        requires used { IsSome (chain_at self.old chain) }
        requires some { 0 < length piece.now }
        requires in_block { length piece.now ≤ room_in (held (chain_at self.old chain)) }
        requires small { length (held (chain_at self.old chain)).bytes + length piece.now < 2 ^ 32 }
        requires made { all_blocks (with_pushed self.old chain piece.now).chains ≤ self.old.made }
        ensures { self.new ≡ with_pushed self.old chain piece.now }
    {
        let marks = self.links.marks(chain);
        let offset = (marks.popped + marks.len) % BLOCK;
        let block = self.links.tail(chain, offset == 0);
        let start = BLOCK * block + offset;
        write(&mut self.bytes, start, piece);
        self.links.set_marks(
            chain,
            Marks {
                is_used: true,
                popped: marks.popped,
                len: marks.len + piece.len(),
            },
        );
    }

    /// Makes as many blocks as are missing for these bytes behind a chain's. After want of memory the chains are as
    /// before.
    fn make(&mut self, chain: usize, bytes: &[u8]) -> Result<(), NoMemory>
        requires chain { chain < length self.old.chains }
        requires small { length (held (chain_at self.old chain)).bytes + length bytes.now < 2 ^ 32 }
        ensures ok { OnOk result (self.new ≡
            record self.old { made = max self.old.made (all_blocks (with_pushed self.old chain bytes.now).chains) }) }
        ensures chains { self.new.chains ≡ self.old.chains }
        ensures rises { self.old.made ≤ self.new.made }
        ensures bound { self.new.made ≤ max self.old.made (all_blocks (with_pushed self.old chain bytes.now).chains) }
        ensures fronts { (q : ℕ) → HasFront (chain_at self.old q) }
    {
        let marks = self.links.marks(chain);
        let filled = marks.popped + marks.len;
        let wanted = (filled + bytes.len()).div_ceil(BLOCK) - filled.div_ceil(BLOCK);
        let missing = wanted.saturating_sub(self.links.free());
        for _ in 0..missing {
            self.add_block()?;
        }
        Ok(())
    }

    /// Appends bytes to a chain, piece by piece: what fits into a block at once.
    fn extend(&mut self, chain: usize, bytes: &[u8])
        requires chain { chain < length self.old.chains }
        requires used { IsSome (chain_at self.old chain) }
        requires small { length (held (chain_at self.old chain)).bytes + length bytes.now < 2 ^ 32 }
        requires made { all_blocks (with_pushed self.old chain bytes.now).chains ≤ self.old.made }
        ensures { self.new ≡ with_pushed self.old chain bytes.now }
    {
        let mut rest = bytes;
        while !rest.is_empty() {
            let (piece, behind) = rest.split_at(self.room(chain).min(rest.len()));
            self.append(chain, piece);
            rest = behind;
        }
    }

    /// Appends bytes to a chain. After want of memory nothing was appended; blocks that were made stay free.
    pub fn push(&mut self, chain: usize, bytes: &[u8]) -> Result<(), NoMemory>
        requires chain { chain < length self.old.chains }
        requires used { IsSome (chain_at self.old chain) }
        requires small { length (held (chain_at self.old chain)).bytes + length bytes.now < 2 ^ 32 }
        ensures ok { OnOk result (self.new ≡ record (with_pushed self.old chain bytes.now) {
          made = max self.old.made (all_blocks (with_pushed self.old chain bytes.now).chains);
        }) }
        ensures err { OnErr result (self.new.chains ≡ self.old.chains) }
        ensures rises { self.old.made ≤ self.new.made }
        ensures bound { self.new.made ≤ max self.old.made (all_blocks (with_pushed self.old chain bytes.now).chains) }
        ensures fronts { (q : ℕ) → HasFront (chain_at self.old q) }
    {
        self.make(chain, bytes)?;
        self.extend(chain, bytes);
        Ok(())
    }

    /// A new block, free. After want of memory all is as before.
    fn add_block(&mut self) -> Result<(), NoMemory>
        ensures ok { OnOk result (self.new ≡ record self.old { made = self.old.made + 1 }) }
        ensures err { OnErr result (self.new ≡ self.old) }
    {
        let len = self.bytes.len();
        self.bytes.extend_from_slice(&[0; BLOCK])?;
        if let Err(refused) = self.links.add_block() {
            self.bytes.truncate(len);
            return Err(refused);
        }
        Ok(())
    }
}

/// Writes over the bytes from `at` on.
fn write(bytes: &mut Vec<u8>, at: usize, piece: &[u8])
    requires { at + length piece.now ≤ length bytes.old.items }
    ensures { bytes.new.items ≡ written bytes.old.items at piece.now }
{
    bytes[at..at + piece.len()].copy_from_slice(piece);
}
