//! A pool of blocks for queues of bytes.

ghost use Rattle.std.specs.Prelude.{vec_capacity, ◌≡◌, ◌≢◌, ◌+◌, ◌-◌, ◌<◌, ◌≤◌, ◌^◌, ◌↔◌, ℕ, [], ◌∷◌, ◌++◌, length};
ghost use Rattle.std.specs.Prelude.{max, None, Some, IsSome, IfOk, OnOk, OnErr};
ghost use Rattle.atspi_pool.specs.Chains.{empty_chain, front_of, pushed, popped_by, cut_by};
ghost use Rattle.atspi_pool.specs.Store.{chain_at, held, with_chain, with_pushed, all_blocks};
ghost use Rattle.atspi_pool.specs.Pool.{after_push, in_use, no_pool, SetsChain, HasFewBlocks, most_of};

use crate::store::Store;
use atspi_base::NoMemory;
use std::alloc::Global;
use std::marker::Model;

/// Blocks of 256 bytes, each free or in exactly one chain, and the chains: queues of bytes, each known by a number.
#[derive(Drop)]
pub struct Pool {
    store: Store,
    unused: Vec<u32>,
}

impl Model for Pool {
    ghost use Rattle.std.specs.Prelude.{vec_capacity};
    ghost use Rattle.atspi_pool.specs.Store as states;
    ghost use Rattle.atspi_pool.specs.Pool.{IsNumbered};

    ghost Value = { states.Store };

    ghost view = { λ p. p.store };

    ghost invariant = { λ p. IsNumbered p.store p.unused.items (vec_capacity p.unused) };
}

impl Pool {
    /// No block and no chain.
    pub fn new(alloc: Global) -> Pool
        ensures { result ≡ no_pool }
    {
        Pool {
            store: Store::new(alloc),
            unused: Vec::new(alloc),
        }
    }

    /// An equal pool: the same chains with the same numbers, in as many blocks.
    pub fn copy(&self, alloc: Global) -> Result<Pool, NoMemory>
        ensures { IfOk result (λ copy. copy ≡ self.now) }
    {
        let store = self.store.copy(alloc)?;
        let unused = copy_unused(alloc, &self.unused, store.chains())?;
        Ok(Pool { store, unused })
    }

    /// An empty chain with a number that is not in use. After want of memory all is as before.
    pub fn new_chain(&mut self) -> Result<u32, NoMemory>
        requires { in_use self.old.chains < 2 ^ 32 }
        ensures number { IfOk result (λ n. chain_at self.old n ≡ None) }
        ensures chains { IfOk result (λ n. SetsChain self.old self.new n (Some empty_chain)) }
        ensures in_use { OnOk result (in_use self.new.chains ≡ in_use self.old.chains + 1) }
        ensures err { OnErr result (self.new ≡ self.old) }
    {
        if let Some(number) = self.unused.pop() {
            self.store.open(number as usize);
            return Ok(number);
        }
        let number = self.store.chains();
        self.unused.reserve(number + 1)?;
        self.store.add_chain()?;
        Ok(number as u32)
    }

    /// The blocks of a chain become free, and its number is not in use any more.
    pub fn drop_chain(&mut self, chain: u32)
        requires { IsSome (chain_at self.old chain) }
        ensures chains { SetsChain self.old self.new chain None }
        ensures in_use { in_use self.new.chains + 1 ≡ in_use self.old.chains }
    {
        self.store.close(chain as usize);
        self.unused.push_reserved(chain);
    }

    /// Appends bytes to a chain, which then has fewer than 4,294,967,296. Blocks are made only where none is free.
    /// After want of memory nothing was appended; blocks that were made stay free.
    pub fn push(&mut self, chain: u32, bytes: &[u8]) -> Result<(), NoMemory>
        requires used { IsSome (chain_at self.old chain) }
        requires small { length (held (chain_at self.old chain)).bytes + length bytes.now < 2 ^ 32 }
        ensures ok { OnOk result (self.new ≡ after_push self.old chain bytes.now) }
        ensures no_free { OnOk result (self.old.made < self.new.made → all_blocks self.new.chains ≡ self.new.made) }
        ensures err { OnErr result (self.new.chains ≡ self.old.chains) }
        ensures rises { self.old.made ≤ self.new.made }
        ensures bound { self.new.made ≤ max self.old.made (most_of (with_pushed self.old chain bytes.now).chains) }
    {
        self.store.push(chain as usize, bytes)
    }

    /// The bytes of the first block of a chain, empty exactly where the chain is.
    pub fn front(&self, chain: u32) -> &[u8]
        requires { IsSome (chain_at self.now chain) }
        ensures bytes { result.now ≡ front_of (held (chain_at self.now chain)) }
        ensures empty { (length result.now ≡ 0) ↔ (length (held (chain_at self.now chain)).bytes ≡ 0) }
    {
        self.store.front(chain as usize)
    }

    /// Drops the first bytes of a chain, at most as many as it has. The blocks that become empty are free. The cost is
    /// that of a walk over those blocks.
    pub fn pop(&mut self, chain: u32, n: u32)
        requires used { IsSome (chain_at self.old chain) }
        requires bytes { n ≤ length (held (chain_at self.old chain)).bytes }
        ensures { self.new ≡ with_chain self.old chain (Some (popped_by (held (chain_at self.old chain)) n)) }
    {
        self.store.pop(chain as usize, n as usize);
    }

    /// Drops the last bytes of a chain, at most as many as it has. The blocks that become empty are free. The cost is
    /// that of a walk over the blocks that stay, and none where no block or each of them becomes empty.
    pub fn cut_back(&mut self, chain: u32, n: u32)
        requires used { IsSome (chain_at self.old chain) }
        requires bytes { n ≤ length (held (chain_at self.old chain)).bytes }
        ensures { self.new ≡ with_chain self.old chain (Some (cut_by (held (chain_at self.old chain)) n)) }
    {
        self.store.cut_back(chain as usize, n as usize);
    }

    /// How many bytes a chain has.
    pub fn len(&self, chain: u32) -> u32
        requires { IsSome (chain_at self.now chain) }
        ensures { result ≡ length (held (chain_at self.now chain)).bytes }
    {
        self.store.len(chain as usize) as u32
    }

    /// How many blocks were ever made.
    pub fn made(&self) -> u64
        ensures { result ≡ self.now.made }
    {
        self.store.made() as u64
    }

    /// How many blocks are free: all that were made but those of the chains.
    pub fn free(&self) -> u64
        ensures free { result + all_blocks self.now.chains ≡ self.now.made }
        ensures few { HasFewBlocks self.now }
    {
        self.store.free() as u64
    }
}

/// The same numbers, with room for `room` of them.
fn copy_unused(alloc: Global, unused: &[u32], room: usize) -> Result<Vec<u32>, NoMemory>
    ensures items { IfOk result (λ copy. copy.items ≡ unused.now) }
    ensures room { IfOk result (λ copy. room ≤ vec_capacity copy) }
{
    let mut copy = Vec::with_capacity(alloc, room)?;
    copy.extend_from_slice(unused)?;
    Ok(copy)
}
